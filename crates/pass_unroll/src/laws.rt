ghost use Rattle.std.specs.Prelude.{ℕ, ◌≤◌};
ghost use Rattle.mlir_ir.specs.Check.{IsWellFormed};
ghost use Rattle.mlir_ir.specs.Check.{breaks, IsWellFormed};
ghost use Rattle.mlir_ir.specs.Places.{DoLabelsFit};
ghost use Rattle.mlir_ir.specs.WellFormed.{OnlySize};
ghost use Rattle.mlir_ir.specs.declared.types.Func.{Func};
ghost use Rattle.pass_copy.specs.ItemLabels.{DoesItemFit};
ghost use Rattle.pass_copy.specs.Meaning.{HasSameMeaning};
ghost use Rattle.pass_unroll.specs.Children.{IsPeeled, IsUnrolled, IsUnrolledFull};
ghost use Rattle.pass_unroll.specs.Limits.{full_limit};
ghost use Rattle.pass_unroll.specs.Planned.{IsPlanned, IsPlannedBy};
ghost use Rattle.pass_unroll.specs.declared.plan.Plan.{Plan};

/// The child of a well-formed function breaks no rule but limits, where the item of the loop keeps
/// to its own labels in the child too. There is nothing to do: the contract is the law.
pub fn children_are_well_formed()
    ensures peeled { (f : Func) (t : ℕ) (plan : Plan) (child : Func) → IsWellFormed f
        → IsPeeled f t plan child → DoesItemFit child t → OnlySize (breaks child) }
    ensures unrolled_full { (f : Func) (t : ℕ) (plan : Plan) (child : Func) → IsWellFormed f
        → IsUnrolledFull f t plan child → DoesItemFit child t → OnlySize (breaks child) }
    ensures unrolled { (f : Func) (t factor : ℕ) (plan : Plan) (child : Func) → IsWellFormed f
        → IsUnrolled f t factor plan child → DoesItemFit child t → OnlySize (breaks child) }
{}

/// A function in which a loop is peeled, or unrolled in full or by a factor, means what it meant
/// before, where the plan is one of the loop and each item of the new function keeps to its labels.
/// There is nothing to do: the contract is the law.
pub fn children_mean_the_same()
    ensures peeled { (f child : Func) (t : ℕ) (plan : Plan) → IsWellFormed f
        → IsPeeled f t plan child → DoLabelsFit child → 1 ≤ plan.count → IsPlanned f t plan
        → HasSameMeaning f child }
    ensures unrolled_full { (f child : Func) (t : ℕ) (plan : Plan) → IsWellFormed f
        → IsUnrolledFull f t plan child → DoLabelsFit child → plan.count ≤ full_limit
        → IsPlanned f t plan → HasSameMeaning f child }
    ensures unrolled { (f child : Func) (t factor : ℕ) (plan : Plan) → IsWellFormed f
        → IsUnrolled f t factor plan child → DoLabelsFit child
        → IsPlannedBy f t factor plan → HasSameMeaning f child }
{}
