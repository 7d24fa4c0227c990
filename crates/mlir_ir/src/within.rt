ghost use Rattle.std.specs.Prelude.{◌≡◌, ◌+◌, ◌<◌, MatchOption};
ghost use Rattle.mlir_ir.specs.Within.{kind_labels_within, opened_labels, ops_labels_within, region_labels_within};

use crate::count::skip_list;
use crate::types::{ForParts, Kind, Op, Region, WhileParts};

/// What is left of that many labels behind those of operations, in which so many more regions may
/// be opened; `None` where there are fewer. No deeper region is looked into.
#[cycle(within)]
pub(crate) fn skip_ops_within(ops: &[Op], room: u32, left: u32) -> Option<u32>
    ensures { MatchOption result (left < ops_labels_within room ops.now)
        (λ rest. rest + ops_labels_within room ops.now ≡ left) }
{
    let mut left = left;
    for op in ops {
        left = skip_list(
            op.results.as_slice().len(),
            skip_kind_within(&op.kind, room, left)?,
        )?;
    }
    Some(left)
}

#[cycle(within)]
fn skip_kind_within(kind: &Kind, room: u32, left: u32) -> Option<u32>
    ensures { MatchOption result (left < kind_labels_within room kind.now)
        (λ rest. rest + kind_labels_within room kind.now ≡ left) }
{
    if room == 0 {
        return Some(left);
    }
    Some(skip_opened(kind, room - 1, left)?)
}

#[cycle(within)]
fn skip_opened(kind: &Kind, room: u32, left: u32) -> Option<u32>
    ensures { MatchOption result (left < opened_labels room kind.now)
        (λ rest. rest + opened_labels room kind.now ≡ left) }
{
    match kind {
        Kind::If(_, first, None) => skip_region_within(first, room, left),
        Kind::If(_, first, Some(other)) => Some(skip_region_within(
            other,
            room,
            skip_region_within(first, room, left)?,
        )?),
        Kind::For(parts) => skip_for_within(parts, room, left),
        Kind::While(parts) => skip_while_within(parts, room, left),
        _ => Some(left),
    }
}

#[cycle(within)]
fn skip_for_within(parts: &ForParts, room: u32, left: u32) -> Option<u32>
    ensures { MatchOption result (left < opened_labels room (Kind.For parts.now))
        (λ rest. rest + opened_labels room (Kind.For parts.now) ≡ left) }
{
    let left = skip_list(parts.args.as_slice().len(), skip_list(2, left)?)?;
    Some(skip_region_within(&parts.body, room, left)?)
}

#[cycle(within)]
fn skip_while_within(parts: &WhileParts, room: u32, left: u32) -> Option<u32>
    ensures { MatchOption result (left < opened_labels room (Kind.While parts.now))
        (λ rest. rest + opened_labels room (Kind.While parts.now) ≡ left) }
{
    let left = skip_list(parts.args.as_slice().len(), skip_list(1, left)?)?;
    let left = skip_region_within(&parts.before, room, left)?;
    let left = skip_list(parts.after_args.as_slice().len(), left)?;
    Some(skip_region_within(&parts.after, room, left)?)
}

#[cycle(within)]
#[tactic(auto, using(crate::proofs::WithinRegions::region_within_items))]
fn skip_region_within(region: &Region, room: u32, left: u32) -> Option<u32>
    ensures { MatchOption result (left < region_labels_within room region.now)
        (λ rest. rest + region_labels_within room region.now ≡ left) }
{
    skip_ops_within(region.ops.as_slice(), room, left)
}
