ghost use Rattle.std.specs.Prelude.{◌≡◌, ◌+◌, ◌<◌, length, MatchOption};
ghost use Rattle.mlir_ir.specs.Labels.{kind_labels, ops_labels, region_labels, for_labels, while_labels};

use crate::types::{ForParts, Kind, Op, Region, WhileParts};

/// What is left of that many labels behind a list that takes one for each of its parts; `None`
/// where there are fewer.
pub(crate) fn skip_list(n: usize, left: u32) -> Option<u32>
    ensures { MatchOption result (left < n) (λ rest. rest + n ≡ left) }
{
    if (left as usize) < n {
        None
    } else {
        Some(left - n as u32)
    }
}

/// What is left of that many labels behind those inside an operation; `None` where there are fewer.
#[cycle(skip)]
pub(crate) fn skip_kind(kind: &Kind, left: u32) -> Option<u32>
    ensures { MatchOption result (left < kind_labels kind.now)
        (λ rest. rest + kind_labels kind.now ≡ left) }
{
    match kind {
        Kind::If(_, first, None) => skip_region(first, left),
        Kind::If(_, first, Some(other)) => Some(skip_region(other, skip_region(first, left)?)?),
        Kind::For(parts) => skip_for(parts, left),
        Kind::While(parts) => skip_while(parts, left),
        _ => Some(left),
    }
}

#[cycle(skip)]
fn skip_for(parts: &ForParts, left: u32) -> Option<u32>
    ensures { MatchOption result (left < kind_labels (Kind.For parts.now))
        (λ rest. rest + kind_labels (Kind.For parts.now) ≡ left) }
{
    let left = skip_list(parts.args.as_slice().len(), skip_list(2, left)?)?;
    Some(skip_region(&parts.body, left)?)
}

#[cycle(skip)]
fn skip_while(parts: &WhileParts, left: u32) -> Option<u32>
    ensures { MatchOption result (left < kind_labels (Kind.While parts.now))
        (λ rest. rest + kind_labels (Kind.While parts.now) ≡ left) }
{
    let left = skip_list(parts.args.as_slice().len(), skip_list(1, left)?)?;
    let left = skip_region(&parts.before, left)?;
    let left = skip_list(parts.after_args.as_slice().len(), left)?;
    Some(skip_region(&parts.after, left)?)
}

#[cycle(skip)]
#[tactic(auto, using(crate::proofs::RegionItems::region_labels_items))]
fn skip_region(region: &Region, left: u32) -> Option<u32>
    ensures { MatchOption result (left < region_labels region.now)
        (λ rest. rest + region_labels region.now ≡ left) }
{
    skip_ops(region.ops.as_slice(), left)
}

/// What is left of that many labels behind those of operations; `None` where there are fewer.
#[cycle(skip)]
fn skip_ops(ops: &[Op], left: u32) -> Option<u32>
    ensures { MatchOption result (left < ops_labels ops.now)
        (λ rest. rest + ops_labels ops.now ≡ left) }
{
    let mut left = left;
    for op in ops {
        left = skip_list(op.results.as_slice().len(), skip_kind(&op.kind, left)?)?;
    }
    Some(left)
}
