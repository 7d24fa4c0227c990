ghost use Rattle.std.specs.Prelude.{◌≡◌, ◌+◌, ◌<◌, ◌^◌, ◌==◌, if◌then◌else◌, true, Some, IfOk, IfSome};
ghost use Rattle.std.specs.Option.{option_map};
ghost use Rattle.arith_word.specs.Operation.{cast_of};
ghost use Rattle.arith_word.specs.declared.op.BinOp.TheVariants.{Addi, Subi, Muli, Shli};
ghost use Rattle.scev_tree.specs.Polynomial.{IsScaled};
ghost use Rattle.scev_tree.specs.Tree.{polynomial_of};
ghost use Rattle.fresh_scev.specs.Expressions.{expression_of, number_in, IsBefore};
ghost use Rattle.fresh_scev.specs.Rules.{have_width as width_had, fitting, or_own, folded, IsCutOf, shift_factor as factor_of, IsShifted, IsBin, truncates as truncates_of, IsTruncatedCast, IsCast, compared, IsComparison, IsEither, IsSelected, IsMerged};

use crate::defined::{Defined, cut_to, number_expr, own_symbol};
use crate::operands::{copied, have_width, is_same, number_of};
use arith_word::{BinOp, CastOp, Label, Pred, Step, Width, Word, apply, cast, compare};
use chrec_algebra::{add, mul, sub, truncate};
use phi_solve::is_below;
use scev_tree::{Expr, scale};
use std::alloc::{AllocError, Global};

// The number, or the symbol of the value itself.
fn or_own_expr(alloc: Global, d: Defined, v: Option<u64>) -> Result<Expr, AllocError>
    ensures rule { IfOk result (λ e. expression_of e ≡ or_own v d.w d.label.0) }
    ensures before { IfOk result (λ e. IsBefore (d.label.0 + 1) (expression_of e)) }
{
    match v {
        Some(v) => Ok(number_expr(d, v)),
        None => Ok(own_symbol(alloc, d)?),
    }
}

// ---- operations on two operands

/// The result of an operation on two operands.
pub(crate) fn bin_expr(
    alloc: Global,
    d: Defined,
    op: BinOp,
    a: &Expr,
    b: &Expr,
) -> Result<Expr, AllocError>
    requires left { IsBefore d.label.0 (expression_of a.now) }
    requires right { IsBefore d.label.0 (expression_of b.now) }
    ensures rule { IfOk result (λ e. fitting
        (width_had d.w (expression_of a.now) (expression_of b.now)) d.w d.label.0 (expression_of e)
        (IsBin op d.w d.label.0 (expression_of a.now) (expression_of b.now) (expression_of e))) }
    ensures before { IfOk result (λ e. IsBefore (d.label.0 + 1) (expression_of e)) }
{
    if !have_width(d.w, a, b) {
        return Ok(own_symbol(alloc, d)?);
    }
    match op {
        BinOp::Addi => Ok(sum_expr(alloc, d, a, b)?),
        BinOp::Subi => Ok(difference_expr(alloc, d, a, b)?),
        BinOp::Muli => Ok(product_expr(alloc, d, a, b)?),
        BinOp::Shli => Ok(shifted_expr(alloc, d, a, b)?),
        _ => Ok(folded_expr(alloc, d, op, a, b)?),
    }
}

fn sum_expr(alloc: Global, d: Defined, a: &Expr, b: &Expr) -> Result<Expr, AllocError>
    requires left_width { a.now.w ≡ d.w }
    requires right_width { b.now.w ≡ d.w }
    requires left { IsBefore d.label.0 (expression_of a.now) }
    requires right { IsBefore d.label.0 (expression_of b.now) }
    ensures rule { IfOk result (λ e. IsBin Addi d.w d.label.0 (expression_of a.now)
        (expression_of b.now) (expression_of e)) }
    ensures before { IfOk result (λ e. IsBefore (d.label.0 + 1) (expression_of e)) }
{
    let e = add(alloc, a, b)?;
    Ok(cut_to(alloc, d, e)?)
}

fn difference_expr(alloc: Global, d: Defined, a: &Expr, b: &Expr) -> Result<Expr, AllocError>
    requires left_width { a.now.w ≡ d.w }
    requires right_width { b.now.w ≡ d.w }
    requires left { IsBefore d.label.0 (expression_of a.now) }
    requires right { IsBefore d.label.0 (expression_of b.now) }
    ensures rule { IfOk result (λ e. IsBin Subi d.w d.label.0 (expression_of a.now)
        (expression_of b.now) (expression_of e)) }
    ensures before { IfOk result (λ e. IsBefore (d.label.0 + 1) (expression_of e)) }
{
    let e = sub(alloc, a, b)?;
    Ok(cut_to(alloc, d, e)?)
}

fn product_expr(alloc: Global, d: Defined, a: &Expr, b: &Expr) -> Result<Expr, AllocError>
    requires left_width { a.now.w ≡ d.w }
    requires right_width { b.now.w ≡ d.w }
    requires left { IsBefore d.label.0 (expression_of a.now) }
    requires right { IsBefore d.label.0 (expression_of b.now) }
    ensures rule { IfOk result (λ e. IsBin Muli d.w d.label.0 (expression_of a.now)
        (expression_of b.now) (expression_of e)) }
    ensures before { IfOk result (λ e. IsBefore (d.label.0 + 1) (expression_of e)) }
{
    let e = mul(alloc, a, b)?;
    Ok(cut_to(alloc, d, e)?)
}

// Where operands are numbers.
fn folded_expr(alloc: Global, d: Defined, op: BinOp, a: &Expr, b: &Expr) -> Result<Expr, AllocError>
    requires left_width { a.now.w ≡ d.w }
    requires right_width { b.now.w ≡ d.w }
    ensures rule { IfOk result (λ e. expression_of e ≡ or_own (folded op d.w
        (number_in (polynomial_of a.now.tree)) (number_in (polynomial_of b.now.tree)))
        d.w d.label.0) }
    ensures before { IfOk result (λ e. IsBefore (d.label.0 + 1) (expression_of e)) }
{
    let v = folded_number(op, d.w, number_of(a), number_of(b));
    Ok(or_own_expr(alloc, d, v)?)
}

fn folded_number(op: BinOp, w: Width, a: Option<u64>, b: Option<u64>) -> Option<u64>
    requires left { IfSome a (λ v. v < 2 ^ w) }
    requires right { IfSome b (λ v. v < 2 ^ w) }
    ensures { result ≡ folded op w a b }
{
    match a {
        Some(x) => match b {
            Some(y) => applied(op, Word { w, v: x }, Word { w, v: y }),
            None => None,
        },
        None => None,
    }
}

fn applied(op: BinOp, x: Word, y: Word) -> Option<u64>
    requires { x.w ≡ y.w }
    ensures { result ≡ folded op x.w (Some x.v) (Some y.v) }
{
    match apply(op, x, y) {
        Step::Value(word) => Some(word.v),
        Step::Trap => None,
    }
}

fn shifted_expr(alloc: Global, d: Defined, a: &Expr, b: &Expr) -> Result<Expr, AllocError>
    requires left_width { a.now.w ≡ d.w }
    requires right_width { b.now.w ≡ d.w }
    requires left { IsBefore d.label.0 (expression_of a.now) }
    ensures rule { IfOk result (λ e. IsBin Shli d.w d.label.0 (expression_of a.now)
        (expression_of b.now) (expression_of e)) }
    ensures before { IfOk result (λ e. IsBefore (d.label.0 + 1) (expression_of e)) }
{
    match shift_factor(d.w, number_of(b)) {
        Some(c) => Ok(scaled_expr(alloc, d, a, c)?),
        None => Ok(folded_expr(alloc, d, BinOp::Shli, a, b)?),
    }
}

fn shift_factor(w: Width, n: Option<u64>) -> Option<u64>
    ensures { result ≡ factor_of w n }
{
    match n {
        Some(n) => {
            if n < u64::from(w.bits()) {
                Some(1u64 << n)
            } else {
                None
            }
        }
        None => None,
    }
}

fn scaled_expr(alloc: Global, d: Defined, a: &Expr, c: u64) -> Result<Expr, AllocError>
    requires width { a.now.w ≡ d.w }
    requires operand { IsBefore d.label.0 (expression_of a.now) }
    ensures rule { IfOk result (λ e. IsCutOf d.w d.label.0 (expression_of e)
        (λ p. IsScaled (2 ^ d.w) c p (polynomial_of a.now.tree))) }
    ensures before { IfOk result (λ e. IsBefore (d.label.0 + 1) (expression_of e)) }
{
    let e = scale(alloc, a, c)?;
    Ok(cut_to(alloc, d, e)?)
}

// ---- casts

/// The result of a cast.
pub(crate) fn cast_expr(alloc: Global, d: Defined, op: CastOp, a: &Expr) -> Result<Expr, AllocError>
    requires { IsBefore d.label.0 (expression_of a.now) }
    ensures rule { IfOk result (λ e. IsCast op d.w d.label.0 (expression_of a.now)
        (expression_of e)) }
    ensures before { IfOk result (λ e. IsBefore (d.label.0 + 1) (expression_of e)) }
{
    if truncates(op, a.w, d.w) {
        Ok(truncated_expr(alloc, d, op, a)?)
    } else {
        Ok(or_own_expr(alloc, d, cast_number(op, a.w, number_of(a), d.w))?)
    }
}

fn truncates(op: CastOp, from: Width, to: Width) -> bool
    ensures { result ≡ truncates_of op from to }
{
    match op {
        CastOp::IndexCast | CastOp::IndexCastui | CastOp::Trunci => to.bits() <= from.bits(),
        CastOp::Extsi | CastOp::Extui => false,
    }
}

fn truncated_expr(alloc: Global, d: Defined, op: CastOp, a: &Expr) -> Result<Expr, AllocError>
    requires narrow { truncates_of op a.now.w d.w ≡ true }
    requires operand { IsBefore d.label.0 (expression_of a.now) }
    ensures rule { IfOk result (λ e. IsTruncatedCast true op d.w d.label.0 (expression_of a.now)
        (expression_of e)) }
    ensures before { IfOk result (λ e. IsBefore (d.label.0 + 1) (expression_of e)) }
{
    let e = truncate(alloc, a, d.w)?;
    Ok(cut_to(alloc, d, e)?)
}

fn cast_number(op: CastOp, from: Width, v: Option<u64>, to: Width) -> Option<u64>
    requires { IfSome v (λ x. x < 2 ^ from) }
    ensures { result ≡ option_map (λ x. cast_of op from x to) v }
{
    match v {
        Some(x) => Some(cast_word(op, Word { w: from, v: x }, to)),
        None => None,
    }
}

// The casts of indices take any widths.
fn cast_word(op: CastOp, x: Word, to: Width) -> u64
    ensures { result ≡ cast_of op x.w x.v to }
{
    match op {
        CastOp::Extsi | CastOp::IndexCast => cast(CastOp::IndexCast, x, to).v,
        CastOp::Extui | CastOp::IndexCastui | CastOp::Trunci => cast(CastOp::IndexCastui, x, to).v,
    }
}

// ---- comparisons

/// The result of a comparison.
pub(crate) fn compare_expr(
    alloc: Global,
    d: Defined,
    pred: Pred,
    a: &Expr,
    b: &Expr,
) -> Result<Expr, AllocError>
    ensures rule { IfOk result (λ e. fitting
        (width_had a.now.w (expression_of a.now) (expression_of b.now)) d.w d.label.0
        (expression_of e) (IsComparison pred d.w d.label.0 (expression_of a.now)
        (expression_of b.now) (expression_of e))) }
    ensures before { IfOk result (λ e. IsBefore (d.label.0 + 1) (expression_of e)) }
{
    if !have_width(a.w, a, b) {
        return Ok(own_symbol(alloc, d)?);
    }
    let v = compared_number(pred, a.w, number_of(a), number_of(b));
    Ok(or_own_expr(alloc, d, v)?)
}

fn compared_number(pred: Pred, w: Width, a: Option<u64>, b: Option<u64>) -> Option<u64>
    requires left { IfSome a (λ v. v < 2 ^ w) }
    requires right { IfSome b (λ v. v < 2 ^ w) }
    ensures { result ≡ compared pred w a b }
{
    match a {
        Some(x) => match b {
            Some(y) => Some(u64::from(compare(pred, Word { w, v: x }, Word { w, v: y }))),
            None => None,
        },
        None => None,
    }
}

// ---- choices

/// The result of a `select`: the arm that a number chooses, or both arms where they are equal.
pub(crate) fn select_expr(
    alloc: Global,
    d: Defined,
    c: &Expr,
    a: &Expr,
    b: &Expr,
) -> Result<Expr, AllocError>
    requires first { IsBefore d.label.0 (expression_of a.now) }
    requires second { IsBefore d.label.0 (expression_of b.now) }
    ensures rule { IfOk result (λ e. fitting
        (width_had d.w (expression_of a.now) (expression_of b.now)) d.w d.label.0 (expression_of e)
        (IsSelected d.w d.label.0 (expression_of c.now) (expression_of a.now)
        (expression_of b.now) (expression_of e))) }
    ensures before { IfOk result (λ e. IsBefore (d.label.0 + 1) (expression_of e)) }
{
    if !have_width(d.w, a, b) {
        return Ok(own_symbol(alloc, d)?);
    }
    match number_of(c) {
        Some(v) => Ok(chosen(alloc, v, a, b)?),
        None => Ok(either_expr(alloc, d, a, b)?),
    }
}

fn chosen(alloc: Global, v: u64, a: &Expr, b: &Expr) -> Result<Expr, AllocError>
    ensures { IfOk result (λ e. expression_of e
        ≡ (if v == 0 then expression_of b.now else expression_of a.now)) }
{
    if v == 0 {
        Ok(copied(alloc, b)?)
    } else {
        Ok(copied(alloc, a)?)
    }
}

fn either_expr(alloc: Global, d: Defined, a: &Expr, b: &Expr) -> Result<Expr, AllocError>
    requires { IsBefore d.label.0 (expression_of a.now) }
    ensures rule { IfOk result (λ e. IsEither d.w d.label.0 (expression_of a.now)
        (expression_of b.now) (expression_of e)) }
    ensures before { IfOk result (λ e. IsBefore (d.label.0 + 1) (expression_of e)) }
{
    if is_same(a, b) {
        Ok(copied(alloc, a)?)
    } else {
        Ok(own_symbol(alloc, d)?)
    }
}

/// A result of an `scf.if` that begins with the label `start`, by what its regions yield.
pub(crate) fn merged_expr(
    alloc: Global,
    start: Label,
    d: Defined,
    a: &Expr,
    b: &Expr,
) -> Result<Expr, AllocError>
    requires { IsBefore d.label.0 (expression_of a.now) }
    ensures rule { IfOk result (λ e. fitting
        (width_had d.w (expression_of a.now) (expression_of b.now)) d.w d.label.0 (expression_of e)
        (IsMerged start.0 d.w d.label.0 (expression_of a.now)
        (expression_of b.now) (expression_of e))) }
    ensures before { IfOk result (λ e. IsBefore (d.label.0 + 1) (expression_of e)) }
{
    if !have_width(d.w, a, b) {
        return Ok(own_symbol(alloc, d)?);
    }
    Ok(invariant_expr(alloc, start, d, a, b)?)
}

fn invariant_expr(
    alloc: Global,
    start: Label,
    d: Defined,
    a: &Expr,
    b: &Expr,
) -> Result<Expr, AllocError>
    requires { IsBefore d.label.0 (expression_of a.now) }
    ensures rule { IfOk result (λ e. IsMerged start.0 d.w d.label.0 (expression_of a.now)
        (expression_of b.now) (expression_of e)) }
    ensures before { IfOk result (λ e. IsBefore (d.label.0 + 1) (expression_of e)) }
{
    if is_same(a, b) && is_below(&a.tree, start) {
        Ok(copied(alloc, a)?)
    } else {
        Ok(own_symbol(alloc, d)?)
    }
}
