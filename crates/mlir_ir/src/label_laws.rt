ghost use Rattle.mlir_ir.specs.Check.{IsWellFormed};
ghost use Rattle.mlir_ir.specs.Loops.{HasFewItems};
ghost use Rattle.mlir_ir.specs.Places.{DoLabelsFit};
ghost use Rattle.mlir_ir.specs.declared.types.Func.{Func};

/// A well-formed function has few enough items, each of few enough labels, for all its labels to fit.
/// There is nothing to do: the contract is the law.
pub fn labels_of_functions()
    ensures few { (f : Func) → IsWellFormed f → HasFewItems f }
    ensures fit { (f : Func) → IsWellFormed f → DoLabelsFit f }
{}
