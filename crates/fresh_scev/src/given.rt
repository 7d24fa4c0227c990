ghost use Rattle.std.specs.Prelude.{◌≡◌, ◌+◌, length, map, OnOk};
ghost use Rattle.fresh_scev.specs.Expressions.{expression_of};
ghost use Rattle.fresh_scev.specs.NextArguments.{AreBefore, AreGiven};
ghost use Rattle.fresh_scev.specs.Table.{facts_of, next_label, AreKnown, HasRoom};
ghost use Rattle.fresh_scev.specs.Walked.{Says};

use crate::growth::define;
use crate::table::Table;
use scev_tree::Expr;
use std::alloc::AllocError;

/// Defines values with these expressions, one after another.
#[tactic(auto, using(crate::proofs::GivenValues::none_given, crate::proofs::GivenValues::first_given, crate::proofs::GivenValues::first_before, crate::proofs::GivenValues::rest_before, crate::proofs::GivenValues::first_room, crate::proofs::GivenValues::rest_room))]
pub(crate) fn define_given(t: &mut Table, mut exprs: Vec<Expr>) -> Result<(), AllocError>
    requires room { HasRoom t.old (length exprs.items) }
    requires known { AreKnown (facts_of t.old) }
    requires before { AreBefore (next_label t.old) (map expression_of exprs.items) }
    ensures { OnOk result (Says t.old t.new (length exprs.items)
        (λ F. AreGiven F (next_label t.old) (map expression_of exprs.items))) }
{
    if exprs.is_empty() {
        return Ok(());
    }
    let first = exprs.remove(0);
    define(t, first, None)?;
    define_given(t, exprs)
}
