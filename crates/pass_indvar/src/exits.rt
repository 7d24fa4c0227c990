ghost use Rattle.std.specs.Prelude.{◌≡◌, ◌++◌, drop, false, IfOk, OnOk};
ghost use Rattle.std.specs.Option.{option_map};
ghost use Rattle.mlir_ir.specs.Check.{IsWellFormed};
ghost use Rattle.pass_copy.specs.Built.{IsBehind, fresh_at};
ghost use Rattle.pass_copy.specs.InScope.{InScope};
ghost use Rattle.pass_copy.specs.Places.{operation_in};
ghost use Rattle.pass_copy.specs.Replaced.{op_labels, Operation, StandsAt};
ghost use Rattle.pass_indvar.specs.Built.{ArePlain, IsLoopBehind, exits_in, first_entry};
ghost use Rattle.pass_indvar.specs.Entries.{entries};
ghost use Rattle.pass_indvar.specs.Exits as spec;
ghost use Rattle.scev_tree.specs.Tree.{polynomial_of};

use crate::chosen::Chosen;
use arith_word::Label;
use item_uses::item_operands;
use mlir_ir::{Func, IrType, Op};
use pass_copy::{Names, Out, Renaming, Span, advance, copy_op, pass_kind};
use pass_expand::{expand, is_expandable};
use scev_tree::{Expr, copy};
use std::alloc::{AllocError, Global};

/// Whether the label is in the list.
fn is_among(l: Label, labels: &[Label]) -> bool
    ensures { result ≡ spec.is_among l.0 labels.now }
{
    labels.iter().any(|x| x.0 == l.0)
}

/// Whether an operation, a terminator or the function's return uses the value.
fn is_used(alloc: Global, f: &Func, l: Label) -> Result<bool, AllocError>
    ensures { IfOk result (λ is. is ≡ spec.is_used f.now l.0) }
{
    let Some(body) = &f.body else {
        return Ok(false);
    };
    for item in body.items.as_slice() {
        let labels = item_operands(alloc, item)?;
        if is_among(l, labels.as_slice()) {
            return Ok(true);
        }
    }
    Ok(is_among(l, body.ret.as_slice()))
}

/// The expression of an entry; `None` where there is no such entry, or none in it.
pub(crate) fn entry(exprs: &[Option<Expr>], i: usize) -> Option<&Expr>
    ensures { option_map (λ e. polynomial_of e.now.tree) result
        ≡ first_entry (drop i (entries exprs.now)) }
{
    if exprs.len() <= i {
        return None;
    }
    match &exprs[i] {
        None => None,
        Some(e) => Some(e),
    }
}

/// Whether the expression of a result with that label and type fits.
fn fits(
    alloc: Global,
    f: &Func,
    target: Label,
    l: Label,
    ty: IrType,
    expr: &Expr,
) -> Result<bool, AllocError>
    requires formed { IsWellFormed f.now }
    requires stands { (o : Operation) × StandsAt f.now target.0 o }
    ensures { IfOk result (λ fits. InScope f.now target.0 (λ T.
        fits ≡ spec.fits f.now T l.0 ty (polynomial_of expr.now.tree))) }
{
    if !is_used(alloc, f, l)? {
        return Ok(false);
    }
    Ok(is_expandable(f, target, ty, expr))
}

/// The results of the loop whose expressions fit, in order.
pub(crate) fn chosen(
    alloc: Global,
    f: &Func,
    target: Label,
    op: &Op,
    exprs: &[Option<Expr>],
) -> Result<Vec<Chosen>, AllocError>
    requires formed { IsWellFormed f.now }
    requires stands { StandsAt f.now target.0 (operation_in op.now) }
    ensures { IfOk result (λ found. InScope f.now target.0 (λ T. exits_in found.items
        ≡ spec.exits f.now T target.0 (operation_in op.now) (entries exprs.now))) }
{
    let mut at = target.0;
    pass_kind(&mut at, &op.kind)?;
    let mut found = Vec::new(alloc);
    for (i, ty) in op.results.as_slice().iter().enumerate() {
        if let Some(expr) = entry(exprs, i) {
            let result = Label(at);
            if fits(alloc, f, target, result, *ty, expr)? {
                found.push(Chosen {
                    result,
                    ty: *ty,
                    expr: copy(alloc, expr)?,
                })?;
            }
        }
        advance(&mut at, 1)?;
    }
    Ok(found)
}

/// The labels that an operation takes.
pub(crate) fn own_labels(op: &Op) -> Result<u32, AllocError>
    ensures { IfOk result (λ n. n ≡ op_labels (operation_in op.now)) }
{
    let mut at = 0;
    pass_kind(&mut at, &op.kind)?;
    advance(&mut at, op.results.as_slice().len())?;
    Ok(at)
}

/// Adds the loop to what is built.
pub(crate) fn push_loop(alloc: Global, out: &mut Out, op: &Op) -> Result<(), AllocError>
    ensures { OnOk result (IsLoopBehind out.old (operation_in op.now) out.new) }
{
    let same = Renaming {
        spans: Vec::new(alloc),
    };
    let copied = copy_op(alloc, op, &same, &mut Names::kept(alloc))?;
    out.ops.push(copied)?;
    pass_kind(&mut out.at, &op.kind)?;
    advance(&mut out.at, op.results.as_slice().len())
}

/// Adds the operations of these results' expressions, and a span for the uses of each result.
pub(crate) fn push_exits(
    alloc: Global,
    out: &mut Out,
    spans: &mut Vec<Span>,
    found: &[Chosen],
) -> Result<(), AllocError>
    requires anew { out.old.fresh.kept ≡ false }
    requires plain { ArePlain (exits_in found.now) }
    ensures built { OnOk result (IsBehind out.old (spec.exit_ops (fresh_at out.old)
        out.old.fresh.given out.old.at (exits_in found.now)) out.new) }
    ensures links { OnOk result (spans.new.items
        ≡ spans.old.items ++ spec.exit_links out.old.at (exits_in found.now)) }
{
    for one in found {
        let value = expand(alloc, out, one.ty, &one.expr)?;
        spans.push(Span {
            from: one.result,
            count: 1,
            to: value,
        })?;
    }
    Ok(())
}
