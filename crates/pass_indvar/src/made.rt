use mlir_ir::Func;

/// What a pass makes of a function.
#[derive(Debug, Drop)]
pub enum Made {
    /// No part of the loop can be changed.
    NothingToDo,
    /// The item of the loop would take more labels than an item has.
    TooManyLabels,
    Child(Func),
}
