ghost use Rattle.std.specs.Prelude.{◌≡◌, IfOk, IsTrue, ◌↔◌};
ghost use Rattle.fresh_scev.specs.Expressions.{expression_of};
ghost use Rattle.fresh_scev.specs.Loops.{AreComparedTurns, constant_turns as turns_of_number, IsGuard};

use crate::operands::is_same;
use arith_word::{Label, Pred};
use chrec_algebra::sub;
use scev_tree::{Expr, copy};
use std::alloc::{AllocError, Global};
use trip_count::{Test, Turns, Why, swapped, turns};

/// The trip count of the loop with this counter whose test compares two expressions.
pub(crate) fn compared_turns(
    alloc: Global,
    counter: Label,
    pred: Pred,
    a: &Expr,
    b: &Expr,
) -> Result<Turns, AllocError>
    ensures { IfOk result (λ t. AreComparedTurns counter.0 pred (expression_of a.now)
        (expression_of b.now) t) }
{
    if b.w != a.w {
        return Ok(Turns::Unknown(Why::NotACompare));
    }
    let test = Test::Compare {
        pred,
        left: copy(alloc, a)?,
        right: copy(alloc, b)?,
        diff: sub(alloc, a, b)?,
    };
    Ok(turns(alloc, counter, &test)?)
}

/// The trip count of a loop whose test is this number.
pub(crate) fn constant_turns(v: u64) -> Turns
    ensures { result ≡ turns_of_number v }
{
    if v == 0 {
        Turns::Count(0)
    } else {
        Turns::Never
    }
}

/// Whether the comparison is the guard of the trip count, as it stands or with the sides and the
/// predicate swapped.
pub(crate) fn is_guard(t: &Turns, test: Pred, left: &Expr, right: &Expr) -> bool
    ensures { IsTrue result ↔ IsGuard t.now test (expression_of left.now)
        (expression_of right.now) }
{
    match t {
        Turns::Guarded { pred, a, c, .. } => {
            let as_it_stands = test == *pred && is_same(left, a) && is_same(right, c);
            let turned = test == swapped(*pred) && is_same(left, c) && is_same(right, a);
            as_it_stands || turned
        }
        _ => false,
    }
}
