ghost use Rattle.std.specs.Prelude.{◌≡◌, IfOk, None};
ghost use Rattle.arith_word.specs.declared.op.Pred.TheVariants.{Slt};
ghost use Rattle.fresh_scev.specs.Expressions.{number_in};
ghost use Rattle.fresh_scev.specs.Facts.{IsTested};
ghost use Rattle.fresh_scev.specs.Loops.{AreComparedTurns};
ghost use Rattle.fresh_scev.specs.Table.{facts_of, role_by};

use crate::counts::{compared_turns, constant_turns};
use crate::fact::Comparison;
use crate::lookup::zero;
use crate::operands::number_of;
use crate::table::Table;
use arith_word::{Label, Pred};
use std::alloc::AllocError;
use trip_count::{Turns, Why};

/// The trip count of an `scf.for` with this counter, by its induction variable and its upper bound.
pub(crate) fn for_turns(
    t: &Table,
    counter: Label,
    variable: Label,
    upper: Label,
) -> Result<Turns, AllocError>
    ensures { IfOk result (λ n. AreComparedTurns counter.0 Slt ((facts_of t.now).expr variable.0)
        ((facts_of t.now).expr upper.0) n) }
{
    let zero = zero();
    let (left, right) = (t.expr(variable, &zero), t.expr(upper, &zero));
    Ok(compared_turns(t.alloc, counter, Pred::Slt, left, right)?)
}

/// The trip count of a loop whose condition isn't a number.
fn tested_turns(t: &Table, counter: Label, test: Option<Comparison>) -> Result<Turns, AllocError>
    ensures { IfOk result (λ n. IsTested (facts_of t.now) counter.0 None (role_by test) n) }
{
    match test {
        Some(test) => {
            let zero = zero();
            let (left, right) = (t.expr(test.left, &zero), t.expr(test.right, &zero));
            Ok(compared_turns(t.alloc, counter, test.pred, left, right)?)
        }
        None => Ok(Turns::Unknown(Why::NotACompare)),
    }
}

/// The trip count of an `scf.while` with this counter, by its condition.
#[tactic(auto, using(crate::proofs::RolesOfValues::tested_role))]
pub(crate) fn while_turns(t: &Table, counter: Label, cond: Label) -> Result<Turns, AllocError>
    ensures { IfOk result (λ n. IsTested (facts_of t.now) counter.0
        (number_in ((facts_of t.now).expr cond.0).p) ((facts_of t.now).role cond.0) n) }
{
    let zero = zero();
    if let Some(v) = number_of(t.expr(cond, &zero)) {
        return Ok(constant_turns(v));
    }
    let test = t.test(cond);
    Ok(tested_turns(t, counter, test)?)
}
