ghost use Rattle.std.specs.Prelude.{◌≡◌, ◌+◌, ◌==◌, ◌&&◌, ◌^◌, true, IfOk, MatchOption, OnOk, length};
ghost use Rattle.std.specs.Option.{option_map};
ghost use Rattle.mlir_ir.specs.Check.{IsWellFormed};
ghost use Rattle.mlir_ir.specs.View.{view_kind, view_ops};
ghost use Rattle.pass_copy.specs.InScope.{InScope};
ghost use Rattle.pass_copy.specs.Places.{operation_in};
ghost use Rattle.pass_copy.specs.Replaced.{Operation, StandsAt};
ghost use Rattle.pass_expand.specs.Expandable.{expands};
ghost use Rattle.pass_indvar.specs.Grown as spec;
ghost use Rattle.pass_indvar.specs.Entries.{entries};
ghost use Rattle.pass_indvar.specs.Reductions.{first_progression, progression};
ghost use Rattle.pass_indvar.specs.Reductions as reductions;
ghost use Rattle.scev_tree.specs.Polynomial.{IsCanonical, variable_of};
ghost use Rattle.scev_tree.specs.Tree.{polynomial_of};
ghost use Rattle.pass_unroll.specs.Built.{loop_of};
ghost use Rattle.pass_unroll.specs.Copies.{operation_of};

use crate::exits::entry;
use crate::growth::{Growth, Places};
use arith_word::{BinOp, Label, Width};
use mlir_ir::{Func, IrType, Kind, Op};
use pass_copy::{advance, pass_kind};
use pass_expand::is_expandable;
use pass_unroll::Source;
use scev_tree::{Expr, Tree, copy_tree};
use std::alloc::{AllocError, Global};

/// A copy of a tree as an expression.
fn copied(alloc: Global, w: Width, tree: &Tree) -> Result<Expr, AllocError>
    requires { IsCanonical (2 ^ w) (polynomial_of tree.now) }
    ensures { IfOk result (λ e. polynomial_of e.tree ≡ polynomial_of tree.now) }
{
    let tree = copy_tree(alloc, tree)?;
    Ok(Expr { w, tree })
}

/// Whether the variable is the counter of the loop with the label `target`.
fn is_counter(counter: bool, x: Label, target: Label) -> bool
    ensures { result ≡ (variable_of counter x.0 == variable_of true target.0) }
{
    counter && x.0 == target.0
}

/// The places of an expression over the counter of the loop with the label `target`, where there
/// are two.
fn places(alloc: Global, target: Label, e: &Expr) -> Result<Option<Places>, AllocError>
    ensures { IfOk result (λ found. MatchOption found
        (spec.HasNoPlaces target.0 (polynomial_of e.now.tree))
        (λ places. spec.ArePlaces target.0 (polynomial_of e.now.tree) places)) }
{
    match &e.tree {
        Tree::Num(_) => Ok(None),
        Tree::Ext { counter, var, ops } => {
            let trees = ops.as_slice();
            if !is_counter(*counter, *var, target) {
                return Ok(None);
            }
            if trees.len() != 2 {
                return Ok(None);
            }
            let start = copied(alloc, e.w, &trees[0])?;
            let step = copied(alloc, e.w, &trees[1])?;
            Ok(Some(Places { start, step }))
        }
    }
}

/// Whether the values of both places are in scope with the type where the loop begins.
fn both_expand(f: &Func, target: Label, ty: &IrType, places: &Places) -> bool
    requires formed { IsWellFormed f.now }
    requires stands { (o : Operation) × StandsAt f.now target.0 o }
    ensures { InScope f.now target.0 (λ T. result ≡ (expands T ty.now (polynomial_of places.now.start.tree)
        && expands T ty.now (polynomial_of places.now.step.tree))) }
{
    is_expandable(f, target, *ty, &places.start) && is_expandable(f, target, *ty, &places.step)
}

/// How the product with that label and type grows, by its expression; `None` where it doesn't grow
/// evenly by values that are in scope where the loop begins.
pub(crate) fn progression_of(
    alloc: Global,
    f: &Func,
    target: Label,
    product: Label,
    ty: &IrType,
    e: &Expr,
) -> Result<Option<Growth>, AllocError>
    requires formed { IsWellFormed f.now }
    requires stands { (o : Operation) × StandsAt f.now target.0 o }
    ensures { IfOk result (λ found. InScope f.now target.0 (λ T. spec.progressions_in found
        ≡ progression T target.0 product.0 ty.now (polynomial_of e.now.tree))) }
{
    let Some(places) = places(alloc, target, e)? else {
        return Ok(None);
    };
    if !both_expand(f, target, ty, &places) {
        return Ok(None);
    }
    Ok(Some(Growth {
        product,
        ty: *ty,
        places,
    }))
}

/// Whether the operation is a product.
pub(crate) fn is_product(kind: &Kind) -> bool
    ensures { result ≡ reductions.is_product (view_kind kind.now) }
{
    matches!(kind, Kind::Bin(BinOp::Muli, _, _, _))
}

/// Goes past the entry of an operation, which has one if it is a product.
fn pass_entry(entries: &mut u32, kind: &Kind) -> Result<(), AllocError>
    ensures { OnOk result (entries.new
        ≡ entries.old + spec.entries_of (view_kind kind.now)) }
{
    if is_product(kind) {
        return advance(entries, 1);
    }
    Ok(())
}

/// How the first result of an operation grows, which has that label and maybe an expression; `None`
/// where the operation is no product.
fn growth_at(
    alloc: Global,
    f: &Func,
    target: Label,
    at: Label,
    op: &Op,
    expr: Option<&Expr>,
) -> Result<Option<Growth>, AllocError>
    requires formed { IsWellFormed f.now }
    requires stands { (o : Operation) × StandsAt f.now target.0 o }
    ensures { IfOk result (λ found. InScope f.now target.0 (λ T. spec.progressions_in found
        ≡ spec.growth_of T target.0 at.0 (operation_in op.now)
        (option_map (λ e. polynomial_of e.now.tree) expr.entry))) }
{
    if !is_product(&op.kind) {
        return Ok(None);
    }
    let types = op.results.as_slice();
    if types.is_empty() {
        return Ok(None);
    }
    match expr {
        None => Ok(None),
        Some(expr) => progression_of(alloc, f, target, at, &types[0], expr),
    }
}

/// The first product of these operations that grows evenly; the first operation has the label `at`.
fn first_growth(
    alloc: Global,
    f: &Func,
    target: Label,
    at: u32,
    ops: &[Op],
    exprs: &[Option<Expr>],
) -> Result<Option<Growth>, AllocError>
    requires formed { IsWellFormed f.now }
    requires stands { (o : Operation) × StandsAt f.now target.0 o }
    ensures { IfOk result (λ found. InScope f.now target.0 (λ T. spec.progressions_in found
        ≡ first_progression T target.0 at (view_ops ops.now) (entries exprs.now))) }
{
    let mut at = at;
    let mut passed = 0;
    for op in ops {
        let expr = entry(exprs, passed as usize);
        if let Some(found) = growth_at(alloc, f, target, Label(at), op, expr)? {
            return Ok(Some(found));
        }
        pass_entry(&mut passed, &op.kind)?;
        pass_kind(&mut at, &op.kind)?;
        advance(&mut at, op.results.as_slice().len())?;
    }
    Ok(None)
}

/// The first product directly in the body of the loop that grows evenly by its entry.
#[tactic(auto, using(mlir_ir::proofs::PartViews::region_rows))]
pub(crate) fn growth_in(
    alloc: Global,
    f: &Func,
    source: &Source,
    exprs: &[Option<Expr>],
) -> Result<Option<Growth>, AllocError>
    requires formed { IsWellFormed f.now }
    requires stands { StandsAt f.now source.now.start.0 (operation_of (loop_of source.now)) }
    ensures { IfOk result (λ found. InScope f.now source.now.start.0 (λ T.
        spec.progressions_in found ≡ first_progression T source.now.start.0
        (source.now.start.0 + 2 + length (loop_of source.now).args)
        (loop_of source.now).body (entries exprs.now))) }
{
    let body = source.parts.body.ops.as_slice();
    Ok(first_growth(alloc, f, source.start, source.body_at, body, exprs)?)
}
