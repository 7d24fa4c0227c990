ghost use Rattle.std.specs.Prelude.{IsTrue, ◌↔◌};
ghost use Rattle.fresh_scev.specs.Facts.{IsGuardOf, IsProved};
ghost use Rattle.fresh_scev.specs.Table.{facts_of, role_by};

use crate::counts::is_guard;
use crate::fact::Comparison;
use crate::lookup::zero;
use crate::table::Table;
use arith_word::Label;
use trip_count::Turns;

fn is_guard_of(t: &Table, test: Option<Comparison>, turns: &Turns) -> bool
    ensures { IsTrue result ↔ IsGuardOf (facts_of t.now) turns.now (role_by test) }
{
    let zero = zero();
    match test {
        Some(c) => {
            let left = t.expr(c.left, &zero);
            let right = t.expr(c.right, &zero);
            is_guard(turns, c.pred, left, right)
        }
        None => false,
    }
}

/// Whether the condition is the guard of the trip count.
#[tactic(auto, using(crate::proofs::RolesOfValues::guard_role))]
fn is_guarded_by(t: &Table, condition: Label, turns: &Turns) -> bool
    ensures { IsTrue result ↔ IsGuardOf (facts_of t.now) turns.now
        ((facts_of t.now).role condition.0) }
{
    let test = t.test(condition);
    is_guard_of(t, test, turns)
}

/// Whether one of the conditions is the guard of the trip count.
pub(crate) fn is_proved(t: &Table, conditions: &[Label], turns: &Turns) -> bool
    ensures { IsTrue result ↔ IsProved (facts_of t.now) conditions.now turns.now }
{
    let Some((c, rest)) = conditions.split_first() else {
        return false;
    };
    is_guarded_by(t, *c, turns) || is_proved(t, rest, turns)
}
