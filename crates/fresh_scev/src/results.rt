ghost use Rattle.std.specs.Prelude.{◌≡◌, ◌+◌, ◌<◌, IfOk, IsTrue};
ghost use Rattle.chrec_algebra.specs.Limits.{IsWithin};
ghost use Rattle.scev_tree.specs.Tree.{polynomial_of};
ghost use Rattle.fresh_scev.specs.Expressions.{expression_of, IsBefore};
ghost use Rattle.fresh_scev.specs.Loops.{IsAtValue, IsAtEnd, IsExitValue, IsResult, IsFound};

use crate::defined::{Defined, cut_to, own_symbol};
use arith_word::{Label, Width};
use chrec_algebra::{add, at, is_within, mul, split, truncate};
use phi_solve::is_below;
use scev_tree::Expr;
use std::alloc::{AllocError, Global};
use trip_count::Turns;

/// A result of the loop with this counter, by the expression of what is carried to it. `proved`
/// says whether the guard of the trip count holds.
pub(crate) fn result_expr(
    alloc: Global,
    counter: Label,
    d: Defined,
    t: &Turns,
    proved: bool,
    a: &Expr,
) -> Result<Expr, AllocError>
    requires order { counter.0 < d.label.0 }
    requires within { IsWithin (polynomial_of a.now.tree) }
    ensures result { IfOk result (λ e. IsResult (IsTrue proved) d.w counter.0 d.label.0 t.now
        (expression_of a.now) (expression_of e)) }
    ensures before { IfOk result (λ e. IsBefore (d.label.0 + 1) (expression_of e)) }
{
    match exit_value(alloc, counter, d.w, t, proved, a)? {
        Some(c) => Ok(cut_to(alloc, d, c)?),
        None => Ok(own_symbol(alloc, d)?),
    }
}

// The expression where the loop ends, if all its variables are below the counter.
fn exit_value(
    alloc: Global,
    counter: Label,
    w: Width,
    t: &Turns,
    proved: bool,
    a: &Expr,
) -> Result<Option<Expr>, AllocError>
    requires { IsWithin (polynomial_of a.now.tree) }
    ensures { IfOk result (λ o. IsFound w (IsExitValue (IsTrue proved) w counter.0 t.now
        (expression_of a.now)) o) }
{
    if a.w != w {
        return Ok(None);
    }
    let Some(c) = end_value(alloc, counter, t, proved, a)? else {
        return Ok(None);
    };
    if is_below(&c.tree, counter) {
        Ok(Some(c))
    } else {
        Ok(None)
    }
}

// The expression in the iteration in which the loop ends.
fn end_value(
    alloc: Global,
    counter: Label,
    t: &Turns,
    proved: bool,
    a: &Expr,
) -> Result<Option<Expr>, AllocError>
    requires { IsWithin (polynomial_of a.now.tree) }
    ensures { IfOk result (λ o. IsFound a.now.w (IsAtEnd (IsTrue proved) a.now.w counter.0 t.now
        (polynomial_of a.now.tree)) o) }
{
    match t {
        Turns::Count(n) => Ok(Some(at(alloc, a, counter, *n)?)),
        Turns::Exactly(e) => Ok(value_at(alloc, counter, e, a)?),
        Turns::Guarded { e, .. } => Ok(guarded_value(alloc, counter, proved, e, a)?),
        _ => Ok(None),
    }
}

fn guarded_value(
    alloc: Global,
    counter: Label,
    proved: bool,
    e: &Expr,
    a: &Expr,
) -> Result<Option<Expr>, AllocError>
    requires { IsWithin (polynomial_of a.now.tree) }
    ensures { IfOk result (λ o. IsFound a.now.w (λ c. IsTrue proved
        × IsAtValue a.now.w counter.0 e.now (polynomial_of a.now.tree) c) o) }
{
    if proved {
        Ok(value_at(alloc, counter, e, a)?)
    } else {
        Ok(None)
    }
}

// The expression in the iteration that the value of `e` names, if it is linear in the counter.
fn value_at(alloc: Global, counter: Label, e: &Expr, a: &Expr) -> Result<Option<Expr>, AllocError>
    requires { IsWithin (polynomial_of a.now.tree) }
    ensures { IfOk result (λ o. IsFound a.now.w (IsAtValue a.now.w counter.0 e.now
        (polynomial_of a.now.tree)) o) }
{
    if a.w.bits() > e.w.bits() || !is_within(e) {
        return Ok(None);
    }
    let Some(line) = split(alloc, a, counter)? else {
        return Ok(None);
    };
    let turns = truncate(alloc, e, a.w)?;
    let moved = mul(alloc, &line.slope, &turns)?;
    if !is_within(&moved) {
        return Ok(None);
    }
    Ok(Some(add(alloc, &line.base, &moved)?))
}
