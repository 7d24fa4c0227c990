ghost use Rattle.std.specs.Prelude.{◌≡◌, ◌+◌, ◌<◌, ◌^◌};
ghost use Rattle.mlir_ir.specs.Operations.{labels_of, inner_labels};
ghost use Rattle.mlir_ir.specs.View.{view_kind, view_ops, view_for, view_while, rows_of};

use mlir_ir::{ForParts, Kind, Op, Region, WhileParts};

/// The slot past the labels of operations, of which the first has that slot.
#[cycle(labels)]
pub(crate) fn past_ops(ops: &[Op], pos: usize) -> usize
    requires { pos + labels_of (view_ops ops.now) < 2 ^ 32 }
    ensures { result ≡ pos + labels_of (view_ops ops.now) }
{
    let mut at = pos;
    for op in ops {
        at = past_kind(&op.kind, at) + op.results.as_slice().len();
    }
    at
}

/// The slot past the labels of a region's operations.
#[cycle(labels)]
#[tactic(auto, using(mlir_ir::proofs::PartViews::region_rows))]
pub(crate) fn past_region(region: &Region, pos: usize) -> usize
    requires { pos + labels_of (rows_of region.now) < 2 ^ 32 }
    ensures { result ≡ pos + labels_of (rows_of region.now) }
{
    past_ops(region.ops.as_slice(), pos)
}

/// The slot past the labels inside an operation.
#[cycle(labels)]
fn past_kind(kind: &Kind, pos: usize) -> usize
    requires { pos + inner_labels (view_kind kind.now) < 2 ^ 32 }
    ensures { result ≡ pos + inner_labels (view_kind kind.now) }
{
    match kind {
        Kind::If(_, first, None) => past_region(first, pos),
        Kind::If(_, first, Some(other)) => past_region(other, past_region(first, pos)),
        Kind::For(parts) => past_for(parts, pos),
        Kind::While(parts) => past_while(parts, pos),
        _ => pos,
    }
}

#[cycle(labels)]
#[tactic(auto, using(mlir_ir::proofs::PartViews::for_parts))]
fn past_for(parts: &ForParts, pos: usize) -> usize
    requires { pos + inner_labels (view_for parts.now) < 2 ^ 32 }
    ensures { result ≡ pos + inner_labels (view_for parts.now) }
{
    past_region(&parts.body, pos + 2 + parts.args.as_slice().len())
}

#[cycle(labels)]
#[tactic(auto, using(mlir_ir::proofs::PartViews::while_parts))]
fn past_while(parts: &WhileParts, pos: usize) -> usize
    requires { pos + inner_labels (view_while parts.now) < 2 ^ 32 }
    ensures { result ≡ pos + inner_labels (view_while parts.now) }
{
    let params = past_region(&parts.before, pos + 1 + parts.args.as_slice().len());
    past_region(&parts.after, params + parts.after_args.as_slice().len())
}
