ghost use Rattle.std.specs.Prelude.{◌≡◌, ◌+◌, ◌∷◌, [], false, length, IfOk, OnOk};
ghost use Rattle.mlir_ir.specs.Operations.{For, joined, labels_of, next, nil};
ghost use Rattle.mlir_ir.specs.View.{view_for, view_ops};
ghost use Rattle.pass_copy.specs.Built.{fresh_at};
ghost use Rattle.pass_copy.specs.Renamed.{keep, relabels, rename_ops};
ghost use Rattle.pass_copy.specs.Renaming.{renamed};
ghost use Rattle.pass_unroll.specs.Built.{loop_of};
ghost use Rattle.pass_unroll.specs.Children as spec;

use crate::plan::Plan;
use crate::source::Source;
use crate::turns::push_copy;
use crate::unrolled::push_loop;
use arith_word::{Label, List};
use mlir_ir::ForParts;
use pass_copy::{
    Names, Out, Renaming, advance, copy_region, moved_map, same_arg, same_args, same_packs,
};
use std::alloc::{AllocError, Global};

/// The loop with its own names from another lower bound on, with other first values of its
/// arguments.
fn later_parts(
    alloc: Global,
    source: &Source,
    map: &Renaming,
    lower: Label,
    inits: List<Label>,
) -> Result<ForParts, AllocError>
    ensures { IfOk result (λ made. view_for made
        ≡ For lower (loop_of source.now).upper (loop_of source.now).step (loop_of source.now).iv
        (loop_of source.now).args inits
        (rename_ops (renamed map.now.spans.items) keep 0 (loop_of source.now).body)
        (relabels (renamed map.now.spans.items) (loop_of source.now).ends)) }
{
    let parts = source.parts;
    let mut kept = Names::kept(alloc);
    Ok(ForParts {
        lower,
        upper: parts.upper,
        step: parts.step,
        iv: same_arg(alloc, &parts.iv)?,
        args: same_args(alloc, parts.args.as_slice())?,
        inits,
        body: copy_region(alloc, &parts.body, map, &mut kept)?,
    })
}

/// Adds a copy for the lower bound, the second value of the variable, and the loop from there on.
/// Returns the renaming of the other uses.
pub fn push_peeled(
    alloc: Global,
    out: &mut Out,
    source: &Source,
    plan: &Plan,
) -> Result<Renaming, AllocError>
    requires anew { out.old.fresh.kept ≡ false }
    requires at { out.old.at ≡ source.now.start.0 }
    requires given { out.old.fresh.given ≡ 0 }
    ensures built { OnOk result (view_ops out.new.ops.items ≡ joined (view_ops out.old.ops.items)
        (spec.peeled (fresh_at out.old) source.now.start.0 plan.now (loop_of source.now))) }
    ensures map { IfOk result (λ map. map.spans.items
        ≡ spec.peel_spans (fresh_at out.old) source.now.start.0 plan.now (loop_of source.now)) }
{
    let parts = source.parts;
    let inits = parts.inits.as_slice();
    let values = push_copy(alloc, out, source, parts.lower, inits)?;
    let second = u128::from(plan.lower) + u128::from(plan.step);
    let lower = out.constant(alloc, parts.iv.ty, second)?;
    let map = moved_map(alloc, source.start.0, out.at)?;
    let later = later_parts(alloc, source, &map, lower, values)?;
    let packs = same_packs(alloc, source.op.packs.as_slice())?;
    advance(&mut out.at, (source.results_at - source.start.0) as usize)?;
    push_loop(alloc, out, source, packs, later)?;
    Ok(map)
}
