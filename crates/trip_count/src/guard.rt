ghost use Rattle.std.specs.Prelude.{◌≡◌, IsTrue, ◌↔◌, ◌⊎◌};
ghost use Rattle.trip_count.specs.Guard.{IsGuard, IsSameExpr};
ghost use Rattle.trip_count.specs.Predicate.{swapped as swapped_of};

use crate::answer::Turns;
use crate::condition::Test;
use crate::predicate::swapped;
use arith_word::Pred;
use scev_tree::{Expr, same};

/// Whether the trip count is guarded and the test is its guard, as it stands or with the sides and
/// the predicate swapped.
pub fn guard_is(t: &Turns, test: &Test) -> bool
    ensures { IsTrue result ↔ IsGuard t.now test.now }
{
    match t {
        Turns::Guarded { pred, a, c, .. } => match test {
            Test::Compare {
                pred: p,
                left,
                right,
                ..
            } => {
                let as_it_stands = *p == *pred && same(left, a) && same(right, c);
                let turned = *p == swapped(*pred) && same(left, c) && same(right, a);
                as_it_stands || turned
            }
            _ => false,
        },
        _ => false,
    }
}
