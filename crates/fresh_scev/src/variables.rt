ghost use Rattle.std.specs.Prelude.{◌≡◌, ◌+◌, ◌<◌, OnOk};
ghost use Rattle.mlir_ir.specs.Words.{bits_of};
ghost use Rattle.fresh_scev.specs.Facts.{untested};
ghost use Rattle.fresh_scev.specs.Loops.{IsVariable};
ghost use Rattle.fresh_scev.specs.Table.{facts_of, next_label, AreKnown, HasRoom};
ghost use Rattle.fresh_scev.specs.Walked.{Says};

use crate::growth::define;
use crate::lookup::zero;
use crate::simple::defined_next;
use crate::table::Table;
use crate::variable::variable_expr;
use arith_word::Label;
use mlir_ir::IrType;
use std::alloc::AllocError;

/// Defines the induction variable of the loop with this counter, by its lower bound and its step.
#[tactic(auto, using(crate::proofs::DefinedVariables::bound, crate::proofs::DefinedVariables::variable_said))]
pub(crate) fn define_variable(
    t: &mut Table,
    counter: Label,
    ty: IrType,
    lower: Label,
    step: Label,
) -> Result<(), AllocError>
    requires room { HasRoom t.old 1 }
    requires known { AreKnown (facts_of t.old) }
    requires order { counter.0 < next_label t.old }
    requires lower { lower.0 < counter.0 }
    requires step { step.0 < counter.0 }
    ensures { OnOk result (Says t.old t.new 1 (λ F. IsVariable counter.0 (bits_of ty)
        (next_label t.old) (F.expr lower.0) (F.expr step.0) (F.expr (next_label t.old))
        × (F.role (next_label t.old) ≡ untested))) }
{
    let d = defined_next(t, ty);
    let zero = zero();
    let (from, by) = (t.expr(lower, &zero), t.expr(step, &zero));
    let e = variable_expr(t.alloc, counter, d, from, by)?;
    define(t, e, None)
}
