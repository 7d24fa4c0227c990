ghost use Rattle.mlir_ir.specs.View.{view_for};
ghost use Rattle.pass_chain.specs.Plans.{HasBounds};

use arith_word::Label;
use mlir_ir::{ForParts, IrType};

/// The bounds and the step of an `scf.for`, with the type of its variable.
#[derive(Clone, Copy, Debug)]
pub struct Bounds {
    pub lower: Label,
    pub upper: Label,
    pub step: Label,
    pub ty: IrType,
}

/// The bounds of an `scf.for`.
#[tactic(auto, using(mlir_ir::proofs::PartViews::for_parts))]
pub fn bounds_of(parts: &ForParts) -> Bounds
    ensures { HasBounds result (view_for parts.now) }
{
    Bounds {
        lower: parts.lower,
        upper: parts.upper,
        step: parts.step,
        ty: parts.iv.ty,
    }
}
