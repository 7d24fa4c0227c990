ghost use Rattle.std.specs.Prelude.{◌≡◌};
ghost use Rattle.mlir_ir.specs.Rules as spec;

use crate::limits::{ARG_LIMIT, LOOP_LIMIT, REGION_LIMIT};
use crate::types::{ForParts, Kind, Pack, Region, WhileParts};

#[tactic(auto, using(crate::proofs::RegionItems::has_yield_ends))]
fn has_yield(region: &Region) -> bool
    ensures { result ≡ spec.has_yield region.now }
{
    0 < region.ends.as_slice().len()
}

/// Whether each pack has results, and all of so many results are in packs.
pub(crate) fn packs_hold(packs: &[Pack], results: usize) -> bool
    ensures { result ≡ spec.packs_hold packs.now results }
{
    let mut left = results;
    for pack in packs {
        let count = pack.count as usize;
        if count == 0 {
            return false;
        }
        if left < count {
            return false;
        }
        left -= count;
    }
    left == 0
}

fn is_for_counted(results: usize, parts: &ForParts) -> bool
    ensures { result ≡ spec.is_kind_counted results (Kind.For parts.now) }
{
    parts.inits.as_slice().len() == parts.args.as_slice().len()
        && parts.args.as_slice().len() == results
        && (results == 0 || has_yield(&parts.body))
}

fn is_while_counted(results: usize, parts: &WhileParts) -> bool
    ensures { result ≡ spec.is_kind_counted results (Kind.While parts.now) }
{
    parts.inits.as_slice().len() == parts.args.as_slice().len()
        && parts.after_args.as_slice().len() == results
}

/// Whether an operation with so many results has lists that agree, and regions that give them.
pub(crate) fn is_kind_counted(results: usize, kind: &Kind) -> bool
    ensures { result ≡ spec.is_kind_counted results kind.now }
{
    match kind {
        Kind::Call(_, _) => true,
        Kind::If(_, _, None) => results == 0,
        Kind::If(_, first, Some(other)) => results == 0 || has_yield(first) && has_yield(other),
        Kind::For(parts) => is_for_counted(results, parts),
        Kind::While(parts) => is_while_counted(results, parts),
        _ => results == 1,
    }
}

/// Whether one more region, or one more loop, may open, and the uses of a call are few enough.
pub(crate) fn is_kind_sized(regions: u32, loops: u32, kind: &Kind) -> bool
    ensures { result ≡ spec.is_kind_sized regions loops kind.now }
{
    match kind {
        Kind::Call(_, uses) => uses.as_slice().len() <= ARG_LIMIT,
        Kind::If(_, _, _) => regions < REGION_LIMIT,
        Kind::For(_) => regions < REGION_LIMIT && loops < LOOP_LIMIT,
        Kind::While(_) => regions < REGION_LIMIT && loops < LOOP_LIMIT,
        _ => true,
    }
}
