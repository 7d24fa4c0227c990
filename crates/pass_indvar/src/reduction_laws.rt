ghost use Rattle.std.specs.Prelude.{ℕ, List, Option};
ghost use Rattle.mlir_ir.specs.Check.{breaks, IsWellFormed};
ghost use Rattle.mlir_ir.specs.Places.{DoLabelsFit};
ghost use Rattle.mlir_ir.specs.WellFormed.{OnlySize};
ghost use Rattle.mlir_ir.specs.declared.types.Func.{Func};
ghost use Rattle.pass_copy.specs.ItemLabels.{DoesItemFit};
ghost use Rattle.pass_copy.specs.Meaning.{HasSameMeaning};
ghost use Rattle.pass_indvar.specs.Reductions.{IsReduced, DoesProgressionHold};
ghost use Rattle.scev_tree.specs.Polynomial.{Polynomial};

/// A function in which an addition stands for a product of a loop breaks no rule but limits, where
/// the item of the loop keeps to its own labels. There is nothing to do: the contract is the law.
pub fn reductions_are_well_formed()
    ensures { (f child : Func) (t : ℕ) (exprs : List (Option Polynomial)) → IsWellFormed f
        → IsReduced f t exprs child → DoesItemFit child t → OnlySize (breaks child) }
{}

/// Such a function means what it meant before, where the product has the numbers of its expression
/// in every run and each item keeps to its labels. There is nothing to do: the contract is the law.
pub fn reductions_mean_the_same()
    ensures { (f child : Func) (t : ℕ) (exprs : List (Option Polynomial)) → IsWellFormed f
        → IsReduced f t exprs child → DoLabelsFit child → DoesProgressionHold f t exprs
        → HasSameMeaning f child }
{}
