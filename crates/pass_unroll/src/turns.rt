ghost use Rattle.std.specs.Prelude.{ℕ, List, ◌≡◌, false, IfOk, OnOk};
ghost use Rattle.pass_copy.specs.Built.{IsBehind, fresh_at};
ghost use Rattle.pass_unroll.specs.Copies as spec;
ghost use Rattle.pass_unroll.specs.Built.{loop_of};

use crate::source::Source;
use arith_word::{Label, List};
use pass_copy::{Out, Renaming, Span, advance, copy_ops, push_links};
use std::alloc::{AllocError, Global};

/// The labels of a copy of the body whose operations begin with label `at`, for these values of the
/// variable and the arguments.
pub(crate) fn copy_map(
    alloc: Global,
    source: &Source,
    variable: Label,
    args: &[Label],
    at: u32,
) -> Result<Renaming, AllocError>
    ensures { IfOk result (λ map. (fresh : ℕ → List ℕ) → map.spans.items
        ≡ spec.copy_spans fresh source.now.start.0 (loop_of source.now) variable args.now at) }
{
    let mut spans = Vec::new(alloc);
    push_links(&mut spans, source.variable_at, &[variable])?;
    push_links(&mut spans, source.args_at, args)?;
    let mut body_at = source.args_at;
    advance(&mut body_at, args.len())?;
    spans.push(Span {
        from: Label(body_at),
        count: source.body,
        to: Label(at),
    })?;
    Ok(Renaming { spans })
}

/// Adds a copy of the body for these values of the variable and the arguments. Returns what it
/// yields.
pub(crate) fn push_copy(
    alloc: Global,
    out: &mut Out,
    source: &Source,
    variable: Label,
    args: &[Label],
) -> Result<List<Label>, AllocError>
    requires anew { out.old.fresh.kept ≡ false }
    ensures ends { IfOk result (λ ends. (fresh : ℕ → List ℕ) → ends
        ≡ spec.copy_ends fresh source.now.start.0
        (loop_of source.now) variable args.now out.old.at) }
    ensures built { OnOk result (IsBehind out.old
        (spec.copy (fresh_at out.old) source.now.start.0 (loop_of source.now) out.old.fresh.given
        variable args.now out.old.at)
        out.new) }
{
    let map = copy_map(alloc, source, variable, args, out.at)?;
    let body = &source.parts.body;
    let mut ops = copy_ops(alloc, body.ops.as_slice(), &map, &mut out.fresh)?;
    out.ops.append(&mut ops)?;
    advance(&mut out.at, source.body as usize)?;
    let ends = map.labels(alloc, body.ends.as_slice())?;
    Ok(ends)
}
