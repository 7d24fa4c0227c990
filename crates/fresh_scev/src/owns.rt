ghost use Rattle.std.specs.Prelude.{length, OnOk};
ghost use Rattle.fresh_scev.specs.Facts.{AreOwn};
ghost use Rattle.fresh_scev.specs.Table.{facts_of, next_label, AreKnown, HasRoom};
ghost use Rattle.fresh_scev.specs.Walked.{Says};

use crate::defined::own_symbol;
use crate::growth::define;
use crate::simple::defined_next;
use crate::table::Table;
use mlir_ir::IrType;
use std::alloc::AllocError;

/// Defines values that are their own symbols.
#[tactic(auto, using(crate::proofs::ListedValues::first_own, crate::proofs::ListedValues::none_said, crate::proofs::GrowingTables::room_later))]
pub(crate) fn define_own(t: &mut Table, tys: &[IrType]) -> Result<(), AllocError>
    requires room { HasRoom t.old (length tys.now) }
    requires known { AreKnown (facts_of t.old) }
    ensures { OnOk result (Says t.old t.new (length tys.now)
        (λ F. AreOwn F (next_label t.old) tys.now)) }
{
    let Some((ty, rest)) = tys.split_first() else {
        return Ok(());
    };
    let d = defined_next(t, *ty);
    let expr = own_symbol(t.alloc, d)?;
    define(t, expr, None)?;
    define_own(t, rest)
}
