ghost use Rattle.std.specs.Prelude.{◌≡◌, ◌+◌, ◌++◌, ◌∷◌, [], false, true, IfOk, OnOk};
ghost use Rattle.mlir_ir.specs.Operations.{joined, next, nil};
ghost use Rattle.mlir_ir.specs.View.{ends_of, rows_of, view_for, view_kind, view_ops};
ghost use Rattle.pass_copy.specs.Built.{fresh_at};
ghost use Rattle.pass_copy.specs.Places.{operation_in};
ghost use Rattle.pass_copy.specs.Renamed.{keep, rename_ops};
ghost use Rattle.pass_copy.specs.Renaming.{renamed};
ghost use Rattle.pass_copy.specs.Renaming as renaming;
ghost use Rattle.pass_expand.specs.Expandable.{IsInSymbols};
ghost use Rattle.pass_indvar.specs.Grown as grown;
ghost use Rattle.pass_indvar.specs.Reductions as spec;
ghost use Rattle.pass_unroll.specs.Built.{loop_of};
ghost use Rattle.scev_tree.specs.Tree.{polynomial_of};

use crate::growth::Growth;
use crate::progressions::is_product;
use arith_word::{Label, List};
use mlir_ir::{Arg, ForParts, IrType, Kind, Op, Pack, Region};
use pass_copy::{
    Names, Out, Renaming, Span, advance, copy_op, copy_types, moved, pass_kind, region_of,
    same_arg, same_args, same_labels, same_packs,
};
use pass_expand::expand;
use pass_unroll::Source;
use std::alloc::{AllocError, Global};
use std::mem;

/// Whether the operation with the label `at` is the product, if that wasn't left out before.
fn is_left_out(done: bool, op: &Op, at: u32, product: Label) -> bool
    ensures { result ≡ grown.leaves done (view_kind op.now.kind) at product.0 }
{
    !done && is_product(&op.kind) && at == product.0
}

/// Adds a copy of an operation with its names, unless it is left out.
fn push_unless(
    alloc: Global,
    made: &mut Vec<Op>,
    names: &mut Names,
    op: &Op,
    map: &Renaming,
    out: bool,
) -> Result<(), AllocError>
    requires { names.old.kept ≡ true }
    ensures { OnOk result (grown.IsPushedUnless (renamed map.now.spans.items) out
        (operation_in op.now) made.old.items names.old made.new.items names.new) }
{
    if out {
        return Ok(());
    }
    made.push(copy_op(alloc, op, map, names)?)?;
    Ok(())
}

/// Copies of operations with their names, without the product; the first has the label `at`.
fn copy_left(
    alloc: Global,
    ops: &[Op],
    at: u32,
    product: Label,
    map: &Renaming,
) -> Result<Vec<Op>, AllocError>
    ensures { IfOk result (λ made. view_ops made.items ≡ rename_ops (renamed map.now.spans.items)
        keep 0 (spec.without product.0 at (view_ops ops.now))) }
{
    let mut made = Vec::new(alloc);
    let mut names = Names::kept(alloc);
    let mut at = at;
    let mut done = false;
    for op in ops {
        let out = is_left_out(done, op, at, product);
        push_unless(alloc, &mut made, &mut names, op, map, out)?;
        done = done || out;
        pass_kind(&mut at, &op.kind)?;
        advance(&mut at, op.results.as_slice().len())?;
    }
    Ok(made)
}

/// The label so many labels behind one.
fn ahead(at: u32, labels: usize) -> Result<u32, AllocError>
    ensures { IfOk result (λ made. made ≡ at + labels) }
{
    let mut at = at;
    advance(&mut at, labels)?;
    Ok(at)
}

/// So many labels from one on, which become those from another on.
fn span(from: u32, count: u32, to: u32) -> Span
    ensures { result ≡ renaming.span from count to }
{
    Span {
        from: Label(from),
        count,
        to: Label(to),
    }
}

/// The uses in a child where the loop begins with the label `at` and has one argument more, which
/// stands for the product.
fn reduced_map(
    alloc: Global,
    source: &Source,
    product: Label,
    at: u32,
) -> Result<Renaming, AllocError>
    ensures { IfOk result (λ map. map.spans.items
        ≡ grown.moves source.now.start.0 (loop_of source.now) product.0 at) }
{
    let results = source.op.results.as_slice().len();
    let arg = ahead(ahead(at, 2)?, source.parts.args.as_slice().len())?;
    let end = ahead(arg, source.body as usize)?;
    let behind = ahead(product.0, 1)?;
    let variables = source.body_at - source.variable_at;
    let front = product.0.saturating_sub(source.body_at);
    let rest = source.results_at.saturating_sub(behind);
    let moves = at.saturating_sub(source.start.0) as usize;
    let mut spans = Vec::with_capacity(alloc, 6)?;
    spans.push(span(source.variable_at, variables, ahead(at, 1)?))?;
    spans.push(span(source.body_at, front, ahead(arg, 1)?))?;
    spans.push(span(product.0, 1, arg))?;
    spans.push(span(behind, rest, ahead(behind, moves)?))?;
    let own = source.end - source.results_at;
    spans.push(span(source.results_at, own, ahead(end, 1)?))?;
    spans.push(moved(source.end, ahead(ahead(end, 2)?, results)?))?;
    Ok(Renaming { spans })
}

/// A list with one element more.
fn and_one<T: Drop>(list: List<T>, one: T) -> Result<List<T>, AllocError>
    ensures { IfOk result (λ made. made ≡ list ++ one ∷ []) }
{
    let mut all = list.into_vec();
    all.push(one)?;
    Ok(List::from_vec(all))
}

/// The values of the start and the step.
#[derive(Clone, Copy)]
struct Values {
    start: Label,
    step: Label,
}

/// The body of the loop that begins at the next label and has one argument more: the product is left
/// out, and what the argument becomes stands at the end.
fn reduced_region(
    alloc: Global,
    out: &mut Out,
    source: &Source,
    g: &Growth,
    map: &Renaming,
    step: Label,
) -> Result<Region, AllocError>
    requires anew { out.old.fresh.kept ≡ false }
    requires map { map.now.spans.items ≡ grown.moves source.now.start.0 (loop_of source.now)
        g.now.product.0 out.old.at }
    ensures ops { IfOk result (λ made. rows_of made
        ≡ grown.sum_body source.now.start.0 (loop_of source.now) g.now.product.0 out.old.at
        (fresh_at out.old out.old.fresh.given) g.now.ty step) }
    ensures ends { IfOk result (λ made. ends_of made
        ≡ grown.sum_ends source.now.start.0 (loop_of source.now) g.now.product.0 out.old.at) }
    ensures names { OnOk result (grown.AreNamed out.old 1 out.new) }
{
    let body = &source.parts.body;
    let arg = ahead(ahead(out.at, 2)?, source.parts.args.as_slice().len())?;
    let end = ahead(arg, source.body as usize)?;
    let left = copy_left(alloc, body.ops.as_slice(), source.body_at, g.product, map)?;
    let outer = mem::replace(&mut out.ops, left);
    out.sum(alloc, g.ty, Label(arg), step)?;
    let made = mem::replace(&mut out.ops, outer);
    let ends = and_one(map.labels(alloc, body.ends.as_slice())?, Label(end))?;
    Ok(region_of(made, ends))
}

/// The loop that begins at the next label and has one argument more.
fn reduced_parts(
    alloc: Global,
    out: &mut Out,
    source: &Source,
    g: &Growth,
    map: &Renaming,
    values: Values,
) -> Result<ForParts, AllocError>
    requires anew { out.old.fresh.kept ≡ false }
    requires map { map.now.spans.items ≡ grown.moves source.now.start.0 (loop_of source.now)
        g.now.product.0 out.old.at }
    ensures parts { IfOk result (λ made. view_for made
        ≡ grown.sum_kind source.now.start.0 (loop_of source.now) g.now.product.0 out.old.at
        (fresh_at out.old out.old.fresh.given) (fresh_at out.old (out.old.fresh.given + 1))
        g.now.ty values.start values.step) }
    ensures names { OnOk result (grown.AreNamed out.old 2 out.new) }
{
    let parts = source.parts;
    let name = out.fresh.fresh_name(alloc)?;
    let body = reduced_region(alloc, out, source, g, map, values.step)?;
    let args = same_args(alloc, parts.args.as_slice())?;
    let inits = same_labels(alloc, parts.inits.as_slice())?;
    Ok(ForParts {
        lower: parts.lower,
        upper: parts.upper,
        step: parts.step,
        iv: same_arg(alloc, &parts.iv)?,
        args: and_one(args, Arg { name, ty: g.ty })?,
        inits: and_one(inits, values.start)?,
        body,
    })
}

/// Adds a loop with the results of the one that is reduced and one more of this type.
fn push_parts(
    alloc: Global,
    out: &mut Out,
    source: &Source,
    ty: &IrType,
    parts: ForParts,
) -> Result<(), AllocError>
    requires anew { out.old.fresh.kept ≡ false }
    ensures { OnOk result (view_ops out.new.ops.items ≡ joined (view_ops out.old.ops.items)
        (next (source.now.op.now.packs ++ grown.pack (fresh_at out.old out.old.fresh.given) ∷ [])
        (source.now.op.now.results ++ ty.now ∷ []) (view_for parts) nil)) }
{
    let name = out.fresh.fresh_name(alloc)?;
    let packs = same_packs(alloc, source.op.packs.as_slice())?;
    let results = copy_types(alloc, source.op.results.as_slice())?;
    out.ops.push(Op {
        packs: and_one(packs, Pack { name, count: 1 })?,
        results: and_one(results, *ty)?,
        kind: Kind::For(parts),
    })?;
    Ok(())
}

/// Adds the operations of the start and of the step, and the loop with one argument more. Returns
/// the renaming of the other uses.
pub(crate) fn push_reduced(
    alloc: Global,
    out: &mut Out,
    source: &Source,
    g: &Growth,
) -> Result<Renaming, AllocError>
    requires anew { out.old.fresh.kept ≡ false }
    requires at { out.old.at ≡ source.now.start.0 }
    requires given { out.old.fresh.given ≡ 0 }
    requires starts { IsInSymbols (polynomial_of g.now.places.start.tree) }
    requires steps { IsInSymbols (polynomial_of g.now.places.step.tree) }
    ensures built { OnOk result (view_ops out.new.ops.items ≡ joined (view_ops out.old.ops.items)
        (spec.reduced (fresh_at out.old) source.now.start.0 (loop_of source.now)
        (grown.progression_in g.now))) }
    ensures map { IfOk result (λ map. map.spans.items ≡ spec.reduced_spans (fresh_at out.old)
        source.now.start.0 (loop_of source.now) (grown.progression_in g.now)) }
{
    let start = expand(alloc, out, g.ty, &g.places.start)?;
    let step = expand(alloc, out, g.ty, &g.places.step)?;
    let map = reduced_map(alloc, source, g.product, out.at)?;
    let parts = reduced_parts(alloc, out, source, g, &map, Values { start, step })?;
    push_parts(alloc, out, source, &g.ty, parts)?;
    Ok(map)
}
