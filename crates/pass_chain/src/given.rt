ghost use Rattle.std.specs.Prelude.{◌≡◌, IfOk};
ghost use Rattle.fresh_scev.specs.Answers.{facts_shown};
ghost use Rattle.mlir_ir.specs.View.{view_for, view_kind, view_ops};
ghost use Rattle.pass_chain.specs.Given.{given_from, given_in_body, given_products, given_results};
ghost use Rattle.pass_copy.specs.Places.{operation_in};
ghost use Rattle.pass_indvar.specs.Entries.{entries};
ghost use Rattle.pass_indvar.specs.Reductions as reductions;
ghost use Rattle.scev_tree.specs.Tree.{polynomial_of};

use arith_word::{BinOp, Label, Width};
use fresh_scev::Facts;
use mlir_ir::{ForParts, Kind, Op};
use pass_copy::{advance, pass_kind};
use scev_tree::{Expr, copy, num};
use std::alloc::{AllocError, Global};

/// A copy of the expression that facts give the label, the number 0 where they give none.
fn expr_at(alloc: Global, facts: &Facts, v: Label) -> Result<Expr, AllocError>
    ensures { IfOk result (λ e. polynomial_of e.tree ≡ ((facts_shown facts.now).expr v.0).p) }
{
    match facts.expr(v) {
        Some(e) => Ok(copy(alloc, e)?),
        None => match Width::new(1) {
            Some(bit) => Ok(num(bit, 0)),
            None => Err(AllocError),
        },
    }
}

/// Copies of the expressions that facts give so many values with labels from one on.
fn exprs_from(
    alloc: Global,
    facts: &Facts,
    start: u32,
    count: usize,
) -> Result<Vec<Option<Expr>>, AllocError>
    ensures { IfOk result (λ made. entries made.items
        ≡ given_from (facts_shown facts.now) start count) }
{
    let mut made = Vec::with_capacity(alloc, count)?;
    let mut at = start;
    for _label in 0..count {
        let expr = expr_at(alloc, facts, Label(at))?;
        made.push(Some(expr))?;
        advance(&mut at, 1)?;
    }
    Ok(made)
}

/// Copies of the expressions that facts give the results of the operation that begins with the label
/// `target`.
///
/// # Errors
///
/// Where memory is refused, or labels go past the last one.
pub fn result_exprs(
    alloc: Global,
    facts: &Facts,
    target: Label,
    op: &Op,
) -> Result<Vec<Option<Expr>>, AllocError>
    ensures { IfOk result (λ made. entries made.items
        ≡ given_results (facts_shown facts.now) target.0 (operation_in op.now)) }
{
    let mut at = target.0;
    pass_kind(&mut at, &op.kind)?;
    Ok(exprs_from(alloc, facts, at, op.results.as_slice().len())?)
}

/// Whether the operation is a product.
fn is_product(kind: &Kind) -> bool
    ensures { result ≡ reductions.is_product (view_kind kind.now) }
{
    matches!(kind, Kind::Bin(BinOp::Muli, _, _, _))
}

/// Copies of the expressions that facts give the products among operations of which the first
/// begins with a label.
fn products_in(
    alloc: Global,
    facts: &Facts,
    start: u32,
    ops: &[Op],
) -> Result<Vec<Option<Expr>>, AllocError>
    ensures { IfOk result (λ made. entries made.items
        ≡ given_products (facts_shown facts.now) start (view_ops ops.now)) }
{
    let mut made = Vec::new(alloc);
    let mut at = start;
    for op in ops {
        if is_product(&op.kind) {
            let expr = expr_at(alloc, facts, Label(at))?;
            made.push(Some(expr))?;
        }
        pass_kind(&mut at, &op.kind)?;
        advance(&mut at, op.results.as_slice().len())?;
    }
    Ok(made)
}

/// The same of those in the body of an `scf.for` that begins with the label `target`.
#[tactic(auto, using(mlir_ir::proofs::PartViews::for_view))]
fn products_of(
    alloc: Global,
    facts: &Facts,
    target: Label,
    parts: &ForParts,
) -> Result<Vec<Option<Expr>>, AllocError>
    ensures { IfOk result (λ made. entries made.items
        ≡ given_in_body (facts_shown facts.now) target.0 (view_for parts.now)) }
{
    let mut at = target.0;
    advance(&mut at, 2)?;
    advance(&mut at, parts.args.as_slice().len())?;
    Ok(products_in(alloc, facts, at, parts.body.ops.as_slice())?)
}

/// Copies of the expressions that facts give the products in the body of the operation with the label
/// `target`, where it is an `scf.for`.
///
/// # Errors
///
/// Where memory is refused, or labels go past the last one.
pub fn product_exprs(
    alloc: Global,
    facts: &Facts,
    target: Label,
    op: &Op,
) -> Result<Vec<Option<Expr>>, AllocError>
    ensures { IfOk result (λ made. entries made.items
        ≡ given_in_body (facts_shown facts.now) target.0 (view_kind op.now.kind)) }
{
    match &op.kind {
        Kind::For(parts) => Ok(products_of(alloc, facts, target, parts)?),
        _ => Ok(Vec::new(alloc)),
    }
}
