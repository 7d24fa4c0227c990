ghost use Rattle.std.specs.Prelude.{◌≡◌, ◌+◌, ◌*◌, ◌<◌, ◌^◌, ◌≤◌, ◌++◌, ◌∷◌, [], ℕ, false, List, IfOk, OnOk};
ghost use Rattle.pass_copy.specs.Renaming.{links};
ghost use Rattle.pass_unroll.specs.Built.{loop_of};
ghost use Rattle.pass_copy.specs.Built.{IsBehind, fresh_at};
ghost use Rattle.pass_copy.specs.Built as built;
ghost use Rattle.pass_unroll.specs.Copies as spec;
ghost use Rattle.pass_unroll.specs.Limits.{full_limit};

use crate::plan::Plan;
use crate::source::Source;
use crate::turns::push_copy;
use arith_word::{Label, List};
use pass_copy::{Out, Renaming, moved, push_links, same_labels};
use std::alloc::{AllocError, Global};

/// Adds a constant and a copy for each iteration. Returns what the last copy yields.
pub fn push_full(
    alloc: Global,
    out: &mut Out,
    source: &Source,
    plan: &Plan,
) -> Result<List<Label>, AllocError>
    requires anew { out.old.fresh.kept ≡ false }
    requires few { plan.now.count ≤ full_limit }
    ensures ends { IfOk result (λ ends. (fresh : ℕ → List ℕ) → ends
        ≡ spec.full_ends fresh source.now.start.0 (loop_of source.now) plan.now.count out.old.at
        (loop_of source.now).inits) }
    ensures built { OnOk result (IsBehind out.old
        (spec.full_copies (fresh_at out.old) source.now.start.0 (loop_of source.now) plan.now.step plan.now.count
        out.old.fresh.given out.old.at plan.now.lower (loop_of source.now).inits) out.new) }
{
    let mut args = same_labels(alloc, source.parts.inits.as_slice())?;
    let mut v = u128::from(plan.lower);
    for _turn in 0..plan.count {
        let variable = out.constant(alloc, source.parts.iv.ty, v)?;
        args = push_copy(alloc, out, source, variable, args.as_slice())?;
        v += u128::from(plan.step);
    }
    Ok(args)
}

/// The uses in a child: results get what the last copy yields, and labels behind them move.
pub fn full_map(
    alloc: Global,
    source: &Source,
    ends: &[Label],
    at: u32,
) -> Result<Renaming, AllocError>
    ensures { IfOk result (λ map. map.spans.items
        ≡ links source.now.results_at ends.now ++ built.moved source.now.end at ∷ []) }
{
    let mut spans = Vec::new(alloc);
    push_links(&mut spans, source.results_at, ends)?;
    spans.push(moved(source.end, at))?;
    Ok(Renaming { spans })
}
