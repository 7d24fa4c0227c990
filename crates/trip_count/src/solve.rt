ghost use Rattle.std.specs.Prelude.{◌≡◌, ◌-◌, ◌*◌, ◌%◌, ◌^◌, ◌<◌, true, IfOk};
ghost use Rattle.chrec_algebra.specs.Sum.{IsDifference};
ghost use Rattle.scev_tree.specs.Polynomial.{IsCanonical, variable_of};
ghost use Rattle.scev_tree.specs.Tree.{polynomial_of};
ghost use Rattle.trip_count.specs.Kind.{KindFits, odd_step as odd_step_kind, unit_step as unit_step_kind, all_numbers, kind_at};
ghost use Rattle.trip_count.specs.Shown.{kind_shown};
ghost use Rattle.trip_count.specs.Turns.{IsCountOf, IsCountOfCompare, IsTest, AreTurns, IsDistance, always as always_turns};

use crate::answer::{Turns, Why};
use crate::condition::Test;
use crate::exit::{Exit, exit_of};
use crate::predicate::is_less;
use crate::recurrence::recurrence_of;
use arith_word::{Label, Pred, Width, inverse_odd, neg};
use chrec_algebra::sub;
use exit_solver::{Hit, least_exit};
use scev_tree::{Expr, Tree, copy_tree, scale_tree};
use std::alloc::{AllocError, Global};

/// The trip count of the loop with this counter, by the first row of the table that fits its test.
pub fn turns(alloc: Global, counter: Label, test: &Test) -> Result<Turns, AllocError>
    requires { IsTest test.now }
    ensures { IfOk result (λ t. AreTurns (variable_of true counter.0) test.now t) }
{
    match test {
        Test::Number(holds) => Ok(always(*holds)),
        Test::Compare {
            pred,
            left,
            right,
            diff,
        } => Ok(compared(alloc, counter, *pred, left, right, diff)?),
        Test::Other => Ok(Turns::Unknown(Why::NotACompare)),
    }
}

fn compared(
    alloc: Global,
    counter: Label,
    pred: Pred,
    left: &Expr,
    right: &Expr,
    diff: &Expr,
) -> Result<Turns, AllocError>
    requires right { right.now.w ≡ left.now.w }
    requires difference { diff.now.w ≡ left.now.w }
    ensures { IfOk result (λ t. IsCountOfCompare (variable_of true counter.0) pred
        left.now right.now diff.now t) }
{
    let exit = exit_of(
        left.w,
        pred,
        recurrence_of(counter, &left.tree),
        recurrence_of(counter, &right.tree),
        recurrence_of(counter, &diff.tree),
    );
    Ok(solve(alloc, left.w, exit)?)
}

fn solve(alloc: Global, w: Width, exit: Exit<'_>) -> Result<Turns, AllocError>
    requires { KindFits (2 ^ w) (kind_shown exit) }
    ensures { IfOk result (λ t. IsCountOf w (kind_shown exit.entry) t) }
{
    match exit {
        Exit::Constant(holds) => Ok(always(holds)),
        Exit::Numeric { pred, a, b, c } => Ok(least_in_numbers(w, pred, a, b, c)),
        Exit::OddStep(a, o) => Ok(odd_step(alloc, w, a, o)?),
        Exit::UnitStep(pred, a, c) => Ok(unit_step(alloc, w, pred, a, c)?),
        Exit::Unsolved(why) => Ok(Turns::Unknown(why)),
    }
}

fn always(holds: bool) -> Turns
    ensures { result ≡ always_turns holds }
{
    if holds { Turns::Never } else { Turns::Count(0) }
}

fn least_in_numbers(w: Width, pred: Pred, a: u64, b: u64, c: u64) -> Turns
    requires start { a < 2 ^ w }
    requires step { b < 2 ^ w }
    requires bound { c < 2 ^ w }
    ensures { IsCountOf w (all_numbers pred a b c) result }
{
    match least_exit(w, pred, a, b, c) {
        Hit::At(n) => Turns::Count(n),
        Hit::Never => Turns::Never,
    }
}

// a + o * n is 0 first at -a / o.
fn odd_step(alloc: Global, w: Width, a: &Tree, o: u64) -> Result<Turns, AllocError>
    requires start { IsCanonical (2 ^ w) (polynomial_of a.now) }
    requires odd { o % 2 ≡ 1 }
    ensures { IfOk result (λ t. IsCountOf w (odd_step_kind (polynomial_of a.now) o) t) }
{
    let inverse = inverse_odd(w, o);
    let tree = scale_tree(alloc, w, a, neg(w, inverse))?;
    Ok(Turns::Exactly(Expr { w, tree }))
}

// From a by one towards c: as many iterations as a and c are apart.
fn unit_step(alloc: Global, w: Width, pred: Pred, a: &Tree, c: &Tree) -> Result<Turns, AllocError>
    requires start { IsCanonical (2 ^ w) (polynomial_of a.now) }
    requires bound { IsCanonical (2 ^ w) (polynomial_of c.now) }
    ensures { IfOk result (λ t. IsCountOf w
        (unit_step_kind pred (polynomial_of a.now) (polynomial_of c.now)) t) }
{
    let first = copied(alloc, w, a)?;
    let bound = copied(alloc, w, c)?;
    let e = distance(alloc, is_less(pred), &first, &bound)?;
    Ok(Turns::Guarded {
        pred,
        a: first,
        c: bound,
        e,
    })
}

fn distance(alloc: Global, less: bool, a: &Expr, c: &Expr) -> Result<Expr, AllocError>
    requires { a.now.w ≡ c.now.w }
    ensures width { IfOk result (λ e. e.w ≡ a.now.w) }
    ensures distance { IfOk result (λ e. IsDistance (2 ^ a.now.w) less (polynomial_of e.tree)
        (polynomial_of a.now.tree) (polynomial_of c.now.tree)) }
{
    if less {
        Ok(sub(alloc, c, a)?)
    } else {
        Ok(sub(alloc, a, c)?)
    }
}

fn copied(alloc: Global, w: Width, t: &Tree) -> Result<Expr, AllocError>
    requires { IsCanonical (2 ^ w) (polynomial_of t.now) }
    ensures width { IfOk result (λ e. e.w ≡ w) }
    ensures same { IfOk result (λ e. polynomial_of e.tree ≡ polynomial_of t.now) }
{
    let tree = copy_tree(alloc, t)?;
    Ok(Expr { w, tree })
}
