ghost use Rattle.std.specs.Prelude.{◌≡◌, ◌+◌, ◌<◌, length, OnOk, IfOk};
ghost use Rattle.mlir_ir.specs.View.{view_kind};
ghost use Rattle.mlir_ir.specs.Words.{bits_of};
ghost use Rattle.fresh_scev.specs.Expressions.{expression_of, IsBefore};
ghost use Rattle.fresh_scev.specs.Rules as rules;
ghost use Rattle.fresh_scev.specs.Table.{facts_of, next_label, role_by, AreKnown, HasRoom};
ghost use Rattle.fresh_scev.specs.Walked.{IsKindRuled, AreKindRuled, SimpleUsesBelow, kind_role, Says};

use crate::defined::{Defined, number_expr, own_symbol};
use crate::fact::Comparison;
use crate::growth::define;
use crate::lookup::zero;
use crate::rules::{bin_expr, cast_expr, compare_expr, select_expr};
use crate::table::Table;
use arith_word::{BinOp, CastOp, Label, Pred, Width};
use mlir_ir::{IrType, Kind};
use scev_tree::Expr;
use std::alloc::AllocError;

/// The value that comes next.
pub(crate) fn defined_next(t: &Table, ty: IrType) -> Defined
    requires { HasRoom t.now 1 }
    ensures width { result.w ≡ bits_of ty }
    ensures label { result.label.0 ≡ next_label t.now }
{
    Defined {
        w: ty.width(),
        label: t.next(),
    }
}

#[tactic(auto, using(crate::proofs::OperandBounds::operand))]
fn bin_rule(t: &Table, d: Defined, op: BinOp, a: Label, b: Label) -> Result<Expr, AllocError>
    requires known { AreKnown (facts_of t.now) }
    requires left { a.0 < d.label.0 }
    requires right { b.0 < d.label.0 }
    ensures rule { IfOk result (λ e. rules.fitting (rules.have_width d.w ((facts_of t.now).expr a.0)
        ((facts_of t.now).expr b.0)) d.w d.label.0 (expression_of e) (rules.IsBin op d.w d.label.0
        ((facts_of t.now).expr a.0) ((facts_of t.now).expr b.0) (expression_of e))) }
    ensures before { IfOk result (λ e. IsBefore (d.label.0 + 1) (expression_of e)) }
{
    let zero = zero();
    Ok(bin_expr(t.alloc, d, op, t.expr(a, &zero), t.expr(b, &zero))?)
}

#[tactic(auto, using(crate::proofs::OperandBounds::operand))]
fn cast_rule(t: &Table, d: Defined, op: CastOp, a: Label) -> Result<Expr, AllocError>
    requires known { AreKnown (facts_of t.now) }
    requires operand { a.0 < d.label.0 }
    ensures rule { IfOk result
        (λ e. rules.IsCast op d.w d.label.0 ((facts_of t.now).expr a.0) (expression_of e)) }
    ensures before { IfOk result (λ e. IsBefore (d.label.0 + 1) (expression_of e)) }
{
    let zero = zero();
    Ok(cast_expr(t.alloc, d, op, t.expr(a, &zero))?)
}

#[tactic(auto, using(crate::proofs::OperandBounds::operand))]
fn compare_rule(t: &Table, d: Defined, pred: Pred, a: Label, b: Label) -> Result<Expr, AllocError>
    ensures rule { IfOk result (λ e. rules.fitting (rules.have_width ((facts_of t.now).expr a.0).w
        ((facts_of t.now).expr a.0) ((facts_of t.now).expr b.0)) d.w d.label.0 (expression_of e)
        (rules.IsComparison pred d.w d.label.0 ((facts_of t.now).expr a.0)
        ((facts_of t.now).expr b.0) (expression_of e))) }
    ensures before { IfOk result (λ e. IsBefore (d.label.0 + 1) (expression_of e)) }
{
    let zero = zero();
    Ok(compare_expr(t.alloc, d, pred, t.expr(a, &zero), t.expr(b, &zero))?)
}

#[tactic(auto, using(crate::proofs::OperandBounds::operand))]
fn select_rule(t: &Table, d: Defined, c: Label, a: Label, b: Label) -> Result<Expr, AllocError>
    requires known { AreKnown (facts_of t.now) }
    requires first { a.0 < d.label.0 }
    requires second { b.0 < d.label.0 }
    ensures rule { IfOk result (λ e. rules.fitting (rules.have_width d.w ((facts_of t.now).expr a.0)
        ((facts_of t.now).expr b.0)) d.w d.label.0 (expression_of e) (rules.IsSelected d.w d.label.0
        ((facts_of t.now).expr c.0) ((facts_of t.now).expr a.0) ((facts_of t.now).expr b.0)
        (expression_of e))) }
    ensures before { IfOk result (λ e. IsBefore (d.label.0 + 1) (expression_of e)) }
{
    let zero = zero();
    let condition = t.expr(c, &zero);
    Ok(select_expr(t.alloc, d, condition, t.expr(a, &zero), t.expr(b, &zero))?)
}

/// The expression of a result of an operation.
fn rule_expr(t: &Table, d: Defined, kind: &Kind) -> Result<Expr, AllocError>
    requires known { AreKnown (facts_of t.now) }
    requires uses { SimpleUsesBelow (view_kind kind.now) d.label.0 }
    ensures rule { IfOk result (λ e. IsKindRuled (facts_of t.now) d.w d.label.0
        (view_kind kind.now) (expression_of e)) }
    ensures before { IfOk result (λ e. IsBefore (d.label.0 + 1) (expression_of e)) }
{
    match kind {
        Kind::Const(v) => Ok(number_expr(d, *v)),
        Kind::Bin(op, _, a, b) => Ok(bin_rule(t, d, *op, *a, *b)?),
        Kind::Cast(op, _, a) => Ok(cast_rule(t, d, *op, *a)?),
        Kind::Cmp(pred, a, b) => Ok(compare_rule(t, d, *pred, *a, *b)?),
        Kind::Select(c, a, b) => Ok(select_rule(t, d, *c, *a, *b)?),
        _ => Ok(own_symbol(t.alloc, d)?),
    }
}

/// The comparison that an operation is.
fn test_of(kind: &Kind) -> Option<Comparison>
    ensures { role_by result ≡ kind_role (view_kind kind.now) }
{
    match kind {
        Kind::Cmp(pred, left, right) => Some(Comparison {
            pred: *pred,
            left: *left,
            right: *right,
        }),
        _ => None,
    }
}

/// Defines the results of an operation.
#[tactic(auto, using(crate::proofs::RuledResults::first_ruled, crate::proofs::RuledResults::none_ruled, crate::proofs::RuledResults::later_uses, crate::proofs::GrowingTables::room_later))]
pub(crate) fn define_results(
    t: &mut Table,
    kind: &Kind,
    results: &[IrType],
) -> Result<(), AllocError>
    requires room { HasRoom t.old (length results.now) }
    requires known { AreKnown (facts_of t.old) }
    requires uses { SimpleUsesBelow (view_kind kind.now) (next_label t.old) }
    ensures { OnOk result (Says t.old t.new (length results.now)
        (λ F. AreKindRuled F (next_label t.old) results.now (view_kind kind.now))) }
{
    let Some((ty, rest)) = results.split_first() else {
        return Ok(());
    };
    let d = defined_next(t, *ty);
    let expr = rule_expr(t, d, kind)?;
    define(t, expr, test_of(kind))?;
    define_results(t, kind, rest)
}
