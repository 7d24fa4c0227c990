use arith_word::Label;
use mlir_ir::IrType;
use scev_tree::Expr;

/// The two places of an expression over one counter alone.
#[derive(Drop)]
pub struct Places {
    pub start: Expr,
    pub step: Expr,
}

/// A product of a loop that grows evenly: `start` in iteration 0, and `step` more in each next one.
#[derive(Drop)]
pub struct Growth {
    pub product: Label,
    pub ty: IrType,
    pub places: Places,
}
