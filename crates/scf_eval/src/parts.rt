ghost use Rattle.std.specs.Prelude.{◌≡◌};
ghost use Rattle.mlir_ir.specs.View as spec;
ghost use Rattle.mlir_ir.specs.View.{view_ops};
ghost use Rattle.mlir_ir.specs.declared.types.Region.{out-Region};

use arith_word::Label;
use mlir_ir::{Op, Region};

/// The operations of a region.
#[tactic(auto, using(mlir_ir::proofs::PartViews::region_rows))]
pub(crate) fn rows_of(region: &Region) -> &[Op]
    ensures rows { view_ops result.now ≡ spec.rows_of region.now }
    ensures ops { result.now ≡ (out-Region region.now).ops }
{
    region.ops.as_slice()
}

/// The values that the terminator of a region gives on.
#[tactic(auto, using(mlir_ir::proofs::PartViews::region_ends))]
pub(crate) fn ends_of(region: &Region) -> &[Label]
    ensures { result.now ≡ spec.ends_of region.now }
{
    region.ends.as_slice()
}
