ghost use Rattle.std.specs.Prelude.{ℕ, List, ◌≡◌, ◌+◌, ◌*◌, ◌-◌, ◌/◌, ◌%◌, ◌≤◌, ◌<◌, ◌∷◌, [], false, length, IfOk, OnOk};
ghost use Rattle.mlir_ir.specs.Operations.{inner_labels, joined, labels_of, next, nil};
ghost use Rattle.mlir_ir.specs.View.{view_for, view_kind, view_ops};
ghost use Rattle.pass_copy.specs.Copied.{HaveGiven};
ghost use Rattle.pass_copy.specs.Renamed.{anew, names_of, relabels, rename_packs};
ghost use Rattle.pass_copy.specs.Renaming.{renamed};
ghost use Rattle.pass_unroll.specs.Built.{IsFirst, IsPastLoop, loop_of};
ghost use Rattle.pass_copy.specs.Built.{IsBehind, fresh_at};
ghost use Rattle.pass_unroll.specs.Steps.{main_loops};
ghost use Rattle.pass_unroll.specs.declared.plan.Plan.{Plan};
ghost use Rattle.pass_unroll.specs.Children as spec;
ghost use Rattle.pass_unroll.specs.Limits.{factor_limit};
ghost use Rattle.pass_unroll.specs.Copies as copies;
ghost use Rattle.pass_copy.specs.Built as built;

use crate::plan::Plan;
use crate::source::Source;
use crate::turns::{copy_map, push_copy};
use arith_word::{Label, List};
use mlir_ir::{ForParts, Kind, Op, Pack};
use pass_copy::{
    Names, Out, Renaming, advance, copy_arg, copy_args, copy_ops, copy_packs, copy_types,
    labels_from, moved_map, region_of, same_arg, same_args, same_labels, same_packs,
};
use std::alloc::{AllocError, Global};
use std::mem;

/// How a loop is unrolled: by its plan, and with so many iterations in one.
#[derive(Clone, Copy)]
pub struct By<'a> {
    pub plan: &'a Plan,
    pub factor: u8,
    ghost above: { 1 ≤ factor },
    ghost within: { factor ≤ factor_limit },
}

/// Goes past what stands before the body of a loop: its counter, its variable and its arguments.
/// Returns the labels of the arguments.
fn enter(alloc: Global, at: &mut u32, source: &Source) -> Result<List<Label>, AllocError>
    ensures args { IfOk result
        (λ args. args ≡ built.labels_from (at.old + 2) (length (loop_of source.now).args)) }
    ensures at { OnOk result (at.new ≡ at.old + 2 + length (loop_of source.now).args) }
{
    let count = source.parts.args.as_slice().len();
    advance(at, 2)?;
    let args = labels_from(alloc, *at, count)?;
    advance(at, count)?;
    Ok(args)
}

/// The body of the main loop with its names: adds it, and returns what it yields.
fn push_first(
    alloc: Global,
    out: &mut Out,
    source: &Source,
    variable: Label,
    args: &[Label],
) -> Result<List<Label>, AllocError>
    ensures built { OnOk result
        (IsFirst out.old (loop_of source.now)
        (copies.copy_spans (fresh_at out.old) source.now.start.0
        (loop_of source.now) variable args.now out.old.at) out.new) }
    ensures ends { IfOk result
        (λ ends. ends
        ≡ relabels (renamed
        (copies.copy_spans (fresh_at out.old) source.now.start.0
        (loop_of source.now) variable args.now out.old.at)) (loop_of source.now).ends) }
{
    let map = copy_map(alloc, source, variable, args, out.at)?;
    let body = &source.parts.body;
    let mut kept = Names::kept(alloc);
    let mut ops = copy_ops(alloc, body.ops.as_slice(), &map, &mut kept)?;
    out.ops.append(&mut ops)?;
    advance(&mut out.at, source.body as usize)?;
    let ends = map.labels(alloc, body.ends.as_slice())?;
    Ok(ends)
}

/// Adds the other copies, each behind the value of the variable in it. Returns what the last one
/// yields.
fn push_more(
    alloc: Global,
    out: &mut Out,
    source: &Source,
    by: &By,
    variable: Label,
    first: List<Label>,
) -> Result<List<Label>, AllocError>
    requires anew { out.old.fresh.kept ≡ false }
    ensures ends { IfOk result
        (λ ends. (fresh : ℕ → List ℕ) → ends
        ≡ copies.more_ends fresh source.now.start.0 (loop_of source.now)
        (by.now.factor - 1) out.old.at first) }
    ensures built { OnOk result
        (IsBehind out.old
        (copies.more_copies (fresh_at out.old) source.now.start.0
        (loop_of source.now) by.now.plan.now.step variable
        (by.now.factor - 1) 1 out.old.fresh.given out.old.at first) out.new) }
{
    let mut args = first;
    for j in 1..by.factor {
        let v = u128::from(j) * u128::from(by.plan.step);
        let steps = out.constant(alloc, source.parts.iv.ty, v)?;
        let value = out.sum(alloc, source.parts.iv.ty, variable, steps)?;
        args = push_copy(alloc, out, source, value, args.as_slice())?;
    }
    Ok(args)
}

/// The main loop, which begins at the next label.
fn main_parts(
    alloc: Global,
    out: &mut Out,
    source: &Source,
    by: &By,
) -> Result<ForParts, AllocError>
    requires anew { out.old.fresh.kept ≡ false }
    requires given { out.old.fresh.given ≡ 2 }
    ensures parts { IfOk result (λ made. view_for made
        ≡ spec.main_kind (fresh_at out.old) source.now.start.0 by.now.plan.now
        (loop_of source.now) by.now.factor out.old.at) }
    ensures built { OnOk result
        (IsPastLoop out.old
        (spec.main_kind (fresh_at out.old) source.now.start.0 by.now.plan.now
        (loop_of source.now) by.now.factor out.old.at)
        ((by.now.factor - 1) * (2 + names_of (loop_of source.now).body)) out.new) }
{
    let parts = source.parts;
    let start = out.at;
    let args = enter(alloc, &mut out.at, source)?;
    let mut variable = start;
    advance(&mut variable, 1)?;
    let outer = mem::replace(&mut out.ops, Vec::new(alloc));
    let first = push_first(alloc, out, source, Label(variable), args.as_slice())?;
    let ends = push_more(alloc, out, source, by, Label(variable), first)?;
    let body = mem::replace(&mut out.ops, outer);
    Ok(ForParts {
        lower: parts.lower,
        upper: source.start,
        step: Label(source.variable_at),
        iv: same_arg(alloc, &parts.iv)?,
        args: same_args(alloc, parts.args.as_slice())?,
        inits: same_labels(alloc, parts.inits.as_slice())?,
        body: region_of(body, ends),
    })
}

/// The rest loop, which begins at the next label, with these first values of its arguments.
fn rest_parts(
    alloc: Global,
    out: &mut Out,
    source: &Source,
    inits: List<Label>,
) -> Result<ForParts, AllocError>
    requires anew { out.old.fresh.kept ≡ false }
    ensures parts { IfOk result (λ made. (plan : Plan) (factor : ℕ) → view_for made
        ≡ spec.rest_kind (fresh_at out.old) source.now.start.0 plan
        (loop_of source.now) factor out.old.fresh.given out.old.at inits) }
    ensures ops { OnOk result (out.new.ops ≡ out.old.ops) }
    ensures at { OnOk result
        (out.new.at ≡ out.old.at + 2 + length (loop_of source.now).args
        + labels_of (loop_of source.now).body) }
{
    let parts = source.parts;
    let mut variable = out.at;
    advance(&mut variable, 1)?;
    let iv = copy_arg(alloc, &parts.iv, &mut out.fresh)?;
    let args = copy_args(alloc, parts.args.as_slice(), &mut out.fresh)?;
    let values = enter(alloc, &mut out.at, source)?;
    let outer = mem::replace(&mut out.ops, Vec::new(alloc));
    let ends = push_copy(alloc, out, source, Label(variable), values.as_slice())?;
    let body = mem::replace(&mut out.ops, outer);
    Ok(ForParts {
        lower: source.start,
        upper: parts.upper,
        step: parts.step,
        iv,
        args,
        inits,
        body: region_of(body, ends),
    })
}

/// Adds a loop with the results of the one that is unrolled. Returns the labels of its results.
pub(crate) fn push_loop(
    alloc: Global,
    out: &mut Out,
    source: &Source,
    packs: List<Pack>,
    parts: ForParts,
) -> Result<List<Label>, AllocError>
    ensures labels { IfOk result
        (λ labels. labels ≡ built.labels_from out.old.at (length source.now.op.now.results)) }
    ensures ops { OnOk result (view_ops out.new.ops.items
        ≡ joined (view_ops out.old.ops.items)
        (next packs source.now.op.now.results (view_for parts) nil)) }
    ensures at { OnOk result (out.new.at ≡ out.old.at + length source.now.op.now.results) }
    ensures names { OnOk result (out.new.fresh ≡ out.old.fresh) }
{
    let results = copy_types(alloc, source.op.results.as_slice())?;
    let count = results.as_slice().len();
    let labels = labels_from(alloc, out.at, count)?;
    advance(&mut out.at, count)?;
    out.ops.push(Op {
        packs,
        results,
        kind: Kind::For(parts),
    })?;
    Ok(labels)
}

/// Adds the two constants of the main loop: its upper bound, and its step.
fn push_header(alloc: Global, out: &mut Out, source: &Source, by: &By) -> Result<(), AllocError>
    requires anew { out.old.fresh.kept ≡ false }
    ensures { OnOk result (IsBehind out.old
        (built.constant (fresh_at out.old out.old.fresh.given) (loop_of source.now).iv.ty
        (by.now.plan.now.lower
        + by.now.plan.now.count / by.now.factor * by.now.factor * by.now.plan.now.step)
        (built.constant (fresh_at out.old (out.old.fresh.given + 1)) (loop_of source.now).iv.ty
        (by.now.factor * by.now.plan.now.step) nil)) out.new) }
{
    let factor = u64::from(by.factor);
    let turns = u128::from(by.plan.count / factor * factor);
    let step = u128::from(by.plan.step);
    let upper = u128::from(by.plan.lower) + turns * step;
    out.constant(alloc, source.parts.iv.ty, upper)?;
    out.constant(alloc, source.parts.iv.ty, u128::from(by.factor) * step)?;
    Ok(())
}

/// Adds the main loop, in place of the one that is unrolled. Returns the first label of its
/// results.
fn push_alone(
    alloc: Global,
    out: &mut Out,
    source: &Source,
    main: ForParts,
) -> Result<u32, AllocError>
    ensures at { IfOk result (λ results. results ≡ out.old.at) }
    ensures ops { OnOk result (view_ops out.new.ops.items ≡ joined (view_ops out.old.ops.items)
        (next source.now.op.now.packs source.now.op.now.results (view_for main) nil)) }
{
    let names = same_packs(alloc, source.op.packs.as_slice())?;
    let results = out.at;
    push_loop(alloc, out, source, names, main)?;
    Ok(results)
}

/// Adds the main loop with fresh names for its results, and the rest loop behind it, in place of
/// the one that is unrolled. Returns the first label of its results.
fn push_both(
    alloc: Global,
    out: &mut Out,
    source: &Source,
    main: ForParts,
) -> Result<u32, AllocError>
    requires anew { out.old.fresh.kept ≡ false }
    ensures at { IfOk result (λ results. results ≡ out.old.at + length source.now.op.now.results
        + (2 + length (loop_of source.now).args + labels_of (loop_of source.now).body)) }
    ensures ops { OnOk result
        ((plan : Plan) (factor : ℕ) → view_ops out.new.ops.items
        ≡ joined (view_ops out.old.ops.items)
        (next (rename_packs (anew (fresh_at out.old)) out.old.fresh.given source.now.op.now.packs)
        source.now.op.now.results (view_for main)
        (next source.now.op.now.packs source.now.op.now.results
        (spec.rest_kind (fresh_at out.old) source.now.start.0 plan (loop_of source.now) factor
        (out.old.fresh.given + length source.now.op.now.packs)
        (out.old.at + length source.now.op.now.results)
        (built.labels_from out.old.at (length source.now.op.now.results))) nil))) }
{
    let packs = source.op.packs.as_slice();
    let names = copy_packs(alloc, packs, &mut out.fresh)?;
    let values = push_loop(alloc, out, source, names, main)?;
    let rest = rest_parts(alloc, out, source, values)?;
    let names = same_packs(alloc, packs)?;
    let results = out.at;
    push_loop(alloc, out, source, names, rest)?;
    Ok(results)
}

/// Adds the main loop, and the rest loop where the factor does not divide the count. Returns the
/// first label of the results.
fn push_loops(
    alloc: Global,
    out: &mut Out,
    source: &Source,
    by: &By,
    main: ForParts,
) -> Result<u32, AllocError>
    requires anew { out.old.fresh.kept ≡ false }
    requires main { view_for main
        ≡ spec.main_kind (fresh_at out.old) source.now.start.0 by.now.plan.now
        (loop_of source.now) by.now.factor (source.now.start.0 + 2) }
    requires at { out.old.at ≡ source.now.start.0 + 2 + inner_labels (view_for main) }
    requires given { out.old.fresh.given
        ≡ spec.main_names (fresh_at out.old) source.now.start.0 by.now.plan.now
        (loop_of source.now) by.now.factor }
    ensures at { IfOk result
        (λ results. results ≡ source.now.start.0 + labels_of (spec.unrolled (fresh_at out.old)
        source.now.start.0 by.now.plan.now (loop_of source.now) by.now.factor)
        - length source.now.op.now.results) }
    ensures ops { OnOk result (view_ops out.new.ops.items ≡ joined (view_ops out.old.ops.items)
        (main_loops (fresh_at out.old) source.now.start.0 by.now.plan.now (loop_of source.now)
        by.now.factor)) }
{
    if by.plan.count % u64::from(by.factor) == 0 {
        let results = push_alone(alloc, out, source, main)?;
        return Ok(results);
    }
    let results = push_both(alloc, out, source, main)?;
    Ok(results)
}

/// Adds the constants, the main loop, and the rest loop where the factor does not divide the count.
/// Returns the renaming of the other uses.
pub fn push_unrolled(
    alloc: Global,
    out: &mut Out,
    source: &Source,
    by: By,
) -> Result<Renaming, AllocError>
    requires anew { out.old.fresh.kept ≡ false }
    requires at { out.old.at ≡ source.now.start.0 }
    requires given { out.old.fresh.given ≡ 0 }
    ensures built { OnOk result (view_ops out.new.ops.items ≡ joined (view_ops out.old.ops.items)
        (spec.unrolled (fresh_at out.old) source.now.start.0 by.entry.plan.now (loop_of source.now)
        by.entry.factor)) }
    ensures map { IfOk result
        (λ map. map.spans.items
        ≡ spec.unroll_spans (fresh_at out.old) source.now.start.0 by.entry.plan.now
        (loop_of source.now) by.entry.factor) }
{
    push_header(alloc, out, source, &by)?;
    let main = main_parts(alloc, out, source, &by)?;
    let results = push_loops(alloc, out, source, &by, main)?;
    let map = moved_map(alloc, source.results_at, results)?;
    Ok(map)
}
