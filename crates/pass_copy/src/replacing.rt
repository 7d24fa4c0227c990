ghost use Rattle.std.specs.Prelude.{◌≡◌, ◌+◌, ◌∷◌, [], length, map, IfOk, OnOk};
ghost use Rattle.pass_copy.specs.Places.{ops_in, inside};
ghost use Rattle.std.specs.Option.{option_map};
ghost use Rattle.mlir_ir.specs.Operations.{inner_labels, joined, labels_of, next, nil};
ghost use Rattle.mlir_ir.specs.Reads.{plain_body, plain_func};
ghost use Rattle.mlir_ir.specs.View.{ends_of, rows_of, view_for, view_items, view_kind, view_ops, view_while};
ghost use Rattle.pass_copy.specs.Replaced as spec;
ghost use Rattle.pass_copy.specs.Renamed.{relabels};
ghost use Rattle.pass_copy.specs.Renaming.{renamed};

use crate::copies::copy_types;
use crate::places::{advance, is_loop, item_label, pass_kind};
use crate::renaming::Renaming;
use crate::same::{region_of, same_arg, same_args, same_ops, same_packs};
use arith_word::{Label, List, Text};
use mlir_ir::{Body, ForParts, Func, Item, Kind, Op, Region, WhileParts};
use sqlite_items::Items;
use std::alloc::{AllocError, Global};

/// What changes: uses follow the renaming, and the others stand for the loop at the target.
#[derive(Clone, Copy)]
pub(crate) struct Change<'a> {
    map: &'a Renaming,
    target: Label,
    others: &'a [Op],
}

/// An operation of another kind, with the same results.
fn same_op(alloc: Global, op: &Op, kind: Kind) -> Result<Vec<Op>, AllocError>
    ensures { IfOk result (λ made. view_ops made.items ≡ next op.now.packs op.now.results
        (view_kind kind) nil) }
{
    let packs = same_packs(alloc, op.packs.as_slice())?;
    let results = copy_types(alloc, op.results.as_slice())?;
    let mut made = Vec::with_capacity(alloc, 1)?;
    made.push(Op {
        packs,
        results,
        kind,
    })?;
    Ok(made)
}

/// Operations of which the first begins with label `at`, in the child.
#[cycle(replace)]
fn replace_ops(
    alloc: Global,
    change: &Change,
    at: &mut u32,
    ops: &[Op],
) -> Result<Vec<Op>, AllocError>
    ensures ops { IfOk result (λ made. view_ops made.items ≡ ops_in change.now at.old
        (view_ops ops.now)) }
    ensures at { OnOk result (at.new ≡ at.old + labels_of (view_ops ops.now)) }
{
    let mut made = Vec::with_capacity(alloc, ops.len())?;
    for op in ops {
        let mut new = replace_op(alloc, change, at, op)?;
        made.append(&mut new)?;
    }
    Ok(made)
}

/// What stands for an operation that begins with label `at` in the child.
#[cycle(replace)]
fn replace_op(alloc: Global, change: &Change, at: &mut u32, op: &Op) -> Result<Vec<Op>, AllocError>
    ensures ops { IfOk result (λ made. view_ops made.items ≡ ops_in change.now at.old (view_ops
        (op.now ∷ []))) }
    ensures at { OnOk result (at.new ≡ at.old + labels_of (view_ops (op.now ∷ []))) }
{
    if is_loop(&op.kind) && *at == change.target.0 {
        pass_kind(at, &op.kind)?;
        advance(at, op.results.as_slice().len())?;
        return Ok(same_ops(alloc, change.others)?);
    }
    let kind = replace_kind(alloc, change, at, &op.kind)?;
    advance(at, op.results.as_slice().len())?;
    let new = same_op(alloc, op, kind)?;
    Ok(new)
}

/// What an operation does that begins with label `at`, in the child.
#[cycle(replace)]
fn replace_kind(
    alloc: Global,
    change: &Change,
    at: &mut u32,
    kind: &Kind,
) -> Result<Kind, AllocError>
    ensures kind { IfOk result (λ made. view_kind made ≡ inside change.now at.old
        (view_kind kind.now)) }
    ensures at { OnOk result (at.new ≡ at.old + inner_labels (view_kind kind.now)) }
{
    let map = change.map;
    match kind {
        Kind::Const(v) => Ok(Kind::Const(*v)),
        Kind::Bin(op, flags, a, b) => Ok(Kind::Bin(*op, *flags, map.label(*a)?, map.label(*b)?)),
        Kind::Cast(op, flags, a) => Ok(Kind::Cast(*op, *flags, map.label(*a)?)),
        Kind::Cmp(pred, a, b) => Ok(Kind::Cmp(*pred, map.label(*a)?, map.label(*b)?)),
        Kind::Select(c, a, b) => Ok(Kind::Select(map.label(*c)?, map.label(*a)?, map.label(*b)?)),
        Kind::Call(func, passed) => Ok(Kind::Call(*func, map.labels(alloc, passed.as_slice())?)),
        Kind::If(c, first, None) => {
            let first = replace_region(alloc, change, at, first)?;
            Ok(Kind::If(map.label(*c)?, first, None))
        }
        Kind::If(c, first, Some(other)) => {
            let first = replace_region(alloc, change, at, first)?;
            let other = replace_region(alloc, change, at, other)?;
            Ok(Kind::If(map.label(*c)?, first, Some(other)))
        }
        Kind::For(parts) => Ok(Kind::For(replace_for(alloc, change, at, parts)?)),
        Kind::While(parts) => Ok(Kind::While(replace_while(alloc, change, at, parts)?)),
    }
}

/// An `scf.for` that begins with label `at`, in the child.
#[cycle(replace)]
#[tactic(auto, using(mlir_ir::proofs::PartViews::for_parts))]
fn replace_for(
    alloc: Global,
    change: &Change,
    at: &mut u32,
    parts: &ForParts,
) -> Result<ForParts, AllocError>
    ensures parts { IfOk result (λ made. view_for made ≡ inside change.now at.old
        (view_for parts.now)) }
    ensures at { OnOk result (at.new ≡ at.old + inner_labels (view_for parts.now)) }
{
    advance(at, 2)?;
    advance(at, parts.args.as_slice().len())?;
    let body = replace_region(alloc, change, at, &parts.body)?;
    Ok(ForParts {
        lower: change.map.label(parts.lower)?,
        upper: change.map.label(parts.upper)?,
        step: change.map.label(parts.step)?,
        iv: same_arg(alloc, &parts.iv)?,
        args: same_args(alloc, parts.args.as_slice())?,
        inits: change.map.labels(alloc, parts.inits.as_slice())?,
        body,
    })
}

/// An `scf.while` that begins with label `at`, in the child.
#[cycle(replace)]
#[tactic(auto, using(mlir_ir::proofs::PartViews::while_parts))]
fn replace_while(
    alloc: Global,
    change: &Change,
    at: &mut u32,
    parts: &WhileParts,
) -> Result<WhileParts, AllocError>
    ensures parts { IfOk result (λ made. view_while made ≡ inside change.now at.old
        (view_while parts.now)) }
    ensures at { OnOk result (at.new ≡ at.old + inner_labels (view_while parts.now)) }
{
    advance(at, 1)?;
    advance(at, parts.args.as_slice().len())?;
    let before = replace_region(alloc, change, at, &parts.before)?;
    advance(at, parts.after_args.as_slice().len())?;
    let after = replace_region(alloc, change, at, &parts.after)?;
    Ok(WhileParts {
        args: same_args(alloc, parts.args.as_slice())?,
        inits: change.map.labels(alloc, parts.inits.as_slice())?,
        before,
        cond: change.map.label(parts.cond)?,
        after_args: same_args(alloc, parts.after_args.as_slice())?,
        after,
    })
}

/// A region whose operations begin with label `at`, in the child.
#[cycle(replace)]
#[tactic(auto, using(mlir_ir::proofs::PartViews::region_rows, mlir_ir::proofs::PartViews::region_ends))]
fn replace_region(
    alloc: Global,
    change: &Change,
    at: &mut u32,
    region: &Region,
) -> Result<Region, AllocError>
    ensures ops { IfOk result (λ made. rows_of made ≡ ops_in change.now at.old
        (rows_of region.now)) }
    ensures ends { IfOk result (λ made. ends_of made
        ≡ relabels (renamed change.now.map.now.spans.items) (ends_of region.now)) }
    ensures at { OnOk result (at.new ≡ at.old + labels_of (rows_of region.now)) }
{
    let ops = replace_ops(alloc, change, at, region.ops.as_slice())?;
    let ends = change.map.labels(alloc, region.ends.as_slice())?;
    Ok(region_of(ops, ends))
}

/// The items of a function, in the child.
fn replace_items(
    alloc: Global,
    change: &Change,
    func: u8,
    items: &[Item],
) -> Result<Vec<Item>, AllocError>
    ensures { IfOk result (λ made. view_items made.items
        ≡ spec.replaced_items (renamed change.now.map.now.spans.items) change.now.target.0
        (view_ops change.now.others.now) func 1 (view_items items.now)) }
{
    let mut made = Vec::with_capacity(alloc, items.len())?;
    for item in items {
        let mut at = item_label(func, made.len() + 1)?;
        let ops = replace_ops(alloc, change, &mut at, item.ops.as_slice())?;
        made.push(Item {
            ops: Items::from_vec(ops),
        })?;
    }
    Ok(made)
}

/// The body of a function, in the child.
fn replace_body(alloc: Global, change: &Change, func: u8, body: &Body) -> Result<Body, AllocError>
    ensures { IfOk result (λ made. plain_body made
        ≡ spec.replaced_body (renamed change.now.map.now.spans.items) change.now.target.0
        (view_ops change.now.others.now) func body.now) }
{
    let items = replace_items(alloc, change, func, body.items.as_slice())?;
    let ret = change.map.labels(alloc, body.ret.as_slice())?;
    Ok(Body {
        items: List::from_vec(items),
        ret,
    })
}

/// The child of a function in which uses follow the renaming, and these operations stand for the
/// loop with that label.
///
/// # Errors
///
/// Where memory is refused. The same error stands for labels past the last one.
pub fn replace(
    alloc: Global,
    f: &Func,
    map: &Renaming,
    target: Label,
    others: &[Op],
) -> Result<Func, AllocError>
    ensures { IfOk result (λ child. plain_func child
        ≡ spec.replaced_func (renamed map.now.spans.items) target.0 (view_ops others.now) f.now) }
{
    let change = Change {
        map,
        target,
        others,
    };
    let body = match &f.body {
        None => None,
        Some(body) => Some(replace_body(alloc, &change, f.index, body)?),
    };
    Ok(Func {
        index: f.index,
        name: Text::from_str(alloc, f.name.as_str())?,
        private: f.private,
        args: same_args(alloc, f.args.as_slice())?,
        results: copy_types(alloc, f.results.as_slice())?,
        body,
    })
}
