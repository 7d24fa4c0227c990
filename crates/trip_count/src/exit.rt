ghost use Rattle.std.specs.Prelude.{◌≡◌, ◌^◌};
ghost use Rattle.trip_count.specs.Shape.{Fits, numeric as numeric_of, number as number_of};
ghost use Rattle.trip_count.specs.Shown.{shape_shown, kind_shown, kinds_shown};
ghost use Rattle.trip_count.specs.Kind.{kind_of, both_numbers as both_numbers_of, by_difference as by_difference_of, by_sides as by_sides_of, by_odd_step as by_odd_step_of, by_unit_step as by_unit_step_of, reason as reason_of, KindFits};

use crate::answer::Why;
use crate::predicate::{is_equality, is_ne, is_unit_step, swapped};
use crate::recurrence::{Recurrence, is_moving, number, numeric};
use arith_word::{Pred, Width, Word, compare};
use scev_tree::Tree;

/// The kind of exit that a comparison makes.
#[derive(Clone, Copy)]
pub enum Exit<'a> {
    /// The test is always the same.
    Constant(bool),
    /// It is `pred(a + b * n, c)` with numbers.
    Numeric { pred: Pred, a: u64, b: u64, c: u64 },
    /// It is that `a + o * n` isn't 0, with an odd number `o`.
    OddStep(&'a Tree, u64),
    /// It is `pred(a + n, c)` for a predicate of being less, or `pred(a - n, c)` for one of being
    /// greater.
    UnitStep(Pred, &'a Tree, &'a Tree),
    /// None of these.
    Unsolved(Why),
}

/// The kind of the test `pred(l, r)`, where `d` is the difference: the first that fits.
pub fn exit_of<'a>(
    w: Width,
    pred: Pred,
    l: Recurrence<'a>,
    r: Recurrence<'a>,
    d: Recurrence<'a>,
) -> Exit<'a>
    requires left { Fits (2 ^ w) (shape_shown l) }
    requires right { Fits (2 ^ w) (shape_shown r) }
    requires difference { Fits (2 ^ w) (shape_shown d) }
    ensures kind { kind_shown result
        ≡ kind_of w pred (shape_shown l.entry) (shape_shown r.entry) (shape_shown d.entry) }
    ensures fits { KindFits (2 ^ w) (kind_shown result) }
{
    first_that_fits(w, pred, l, r, d)
}

fn first_that_fits<'a>(
    w: Width,
    pred: Pred,
    l: Recurrence<'a>,
    r: Recurrence<'a>,
    d: Recurrence<'a>,
) -> Exit<'a>
    requires left { Fits (2 ^ w) (shape_shown l) }
    requires right { Fits (2 ^ w) (shape_shown r) }
    ensures { kind_shown result
        ≡ kind_of w pred (shape_shown l.entry) (shape_shown r.entry) (shape_shown d.entry) }
{
    if let Some(exit) = both_numbers(w, pred, l, r) {
        return exit;
    }
    if let Some(exit) = by_difference(pred, d) {
        return exit;
    }
    if let Some(exit) = by_sides(pred, l, r) {
        return exit;
    }
    if let Some(exit) = by_sides(swapped(pred), r, l) {
        return exit;
    }
    if let Some(exit) = by_odd_step(pred, d) {
        return exit;
    }
    if let Some(exit) = by_unit_step(w, pred, l, r) {
        return exit;
    }
    if let Some(exit) = by_unit_step(w, swapped(pred), r, l) {
        return exit;
    }
    Exit::Unsolved(reason(l, r))
}

fn both_numbers<'a>(w: Width, pred: Pred, l: Recurrence<'a>, r: Recurrence<'a>) -> Option<Exit<'a>>
    requires left { Fits (2 ^ w) (shape_shown l) }
    requires right { Fits (2 ^ w) (shape_shown r) }
    ensures { kinds_shown result
        ≡ both_numbers_of w pred (number_of (shape_shown l.entry)) (number_of (shape_shown r.entry)) }
{
    match number(l) {
        Some(u) => match number(r) {
            Some(v) => Some(Exit::Constant(compare(pred, Word { w, v: u }, Word { w, v }))),
            None => None,
        },
        None => None,
    }
}

fn by_difference<'a>(pred: Pred, d: Recurrence<'a>) -> Option<Exit<'a>>
    ensures { kinds_shown result ≡ by_difference_of pred (numeric_of (shape_shown d.entry)) }
{
    match numeric(d) {
        Some((a, b)) => {
            if is_equality(pred) {
                Some(Exit::Numeric { pred, a, b, c: 0 })
            } else {
                None
            }
        }
        None => None,
    }
}

fn by_sides<'a>(pred: Pred, l: Recurrence<'a>, r: Recurrence<'a>) -> Option<Exit<'a>>
    ensures { kinds_shown result
        ≡ by_sides_of pred (numeric_of (shape_shown l.entry)) (number_of (shape_shown r.entry)) }
{
    match numeric(l) {
        Some((a, b)) => match number(r) {
            Some(c) => {
                if is_equality(pred) {
                    None
                } else {
                    Some(Exit::Numeric { pred, a, b, c })
                }
            }
            None => None,
        },
        None => None,
    }
}

fn by_odd_step<'a>(pred: Pred, d: Recurrence<'a>) -> Option<Exit<'a>>
    ensures { kinds_shown result ≡ by_odd_step_of pred (shape_shown d.entry) }
{
    match d {
        Recurrence::Affine(a, o) => {
            if is_ne(pred) {
                if o % 2 == 1 {
                    Some(Exit::OddStep(a, o))
                } else {
                    None
                }
            } else {
                None
            }
        }
        Recurrence::SymbolicStep => None,
        Recurrence::Moving => None,
    }
}

fn by_unit_step<'a>(w: Width, pred: Pred, l: Recurrence<'a>, r: Recurrence<'a>) -> Option<Exit<'a>>
    ensures { kinds_shown result ≡ by_unit_step_of w pred (shape_shown l.entry) (shape_shown r.entry) }
{
    match l {
        Recurrence::Affine(a, s) => match r {
            Recurrence::Affine(c, t) => {
                if t == 0 {
                    if is_unit_step(w, pred, s) {
                        Some(Exit::UnitStep(pred, a, c))
                    } else {
                        None
                    }
                } else {
                    None
                }
            }
            Recurrence::SymbolicStep => None,
            Recurrence::Moving => None,
        },
        Recurrence::SymbolicStep => None,
        Recurrence::Moving => None,
    }
}

fn reason(l: Recurrence<'_>, r: Recurrence<'_>) -> Why
    ensures { result ≡ reason_of (shape_shown l.entry) (shape_shown r.entry) }
{
    if is_moving(l) || is_moving(r) {
        Why::Moving
    } else {
        Why::Symbolic
    }
}
