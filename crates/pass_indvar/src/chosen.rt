use arith_word::Label;
use mlir_ir::IrType;
use scev_tree::Expr;

/// A result of a loop that gets its value from an expression.
#[derive(Drop)]
pub struct Chosen {
    pub result: Label,
    pub ty: IrType,
    pub expr: Expr,
}
