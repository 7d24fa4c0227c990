ghost use Rattle.std.specs.Prelude.{◌≡◌, ℕ, Bool, List, Some};
ghost use Rattle.std.specs.List.{All};
ghost use Rattle.item_uses.specs.Uses.{AreClosed};
ghost use Rattle.mlir_ir.specs.Check.{IsWellFormed};
ghost use Rattle.mlir_ir.specs.Loops.{func_loops};
ghost use Rattle.mlir_ir.specs.Values.{func_values, type_at};
ghost use Rattle.mlir_ir.specs.declared.loop_labels.LoopLabels.{LoopLabels};
ghost use Rattle.mlir_ir.specs.declared.types.Func.{Func};
ghost use Rattle.mlir_ir.specs.declared.types.IrType.{IrType};
ghost use Rattle.fresh_scev.specs.Facts.{Facts as Family, IsFacts};
ghost use Rattle.fresh_scev.specs.Wanted.{with_items};

/// A well-formed function has one family of facts: each value has one expression and one role, and
/// each loop one trip count. There is nothing to do: the contract is the law.
pub fn facts_are_determined()
    ensures values { (f : Func) (F G : Family) (label : ℕ) (ty : IrType) → IsWellFormed f
        → IsFacts f F → IsFacts f G → type_at (func_values f) label ≡ Some ty
        → (F.expr label ≡ G.expr label) × (F.role label ≡ G.role label) }
    ensures turns { (f : Func) (F G : Family) → IsWellFormed f → IsFacts f F → IsFacts f G
        → All (λ (l : LoopLabels). F.turns l.counter.0 ≡ G.turns l.counter.0) (func_loops f) }
{}

/// Where some items of a well-formed function have all items that they use among them, the function
/// that has them alone is well formed, and its values and loops have the facts of the whole function.
/// There is nothing to do: the contract is the law.
pub fn some_items_have_all_facts()
    ensures well_formed { (f : Func) (marks : List Bool) → IsWellFormed f → AreClosed marks f
        → IsWellFormed (with_items marks f) }
    ensures values { (f : Func) (marks : List Bool) (F G : Family) (label : ℕ) (ty : IrType)
        → IsWellFormed f → AreClosed marks f → IsFacts f F → IsFacts (with_items marks f) G
        → type_at (func_values (with_items marks f)) label ≡ Some ty
        → (F.expr label ≡ G.expr label) × (F.role label ≡ G.role label) }
    ensures turns { (f : Func) (marks : List Bool) (F G : Family) → IsWellFormed f
        → AreClosed marks f → IsFacts f F → IsFacts (with_items marks f) G
        → All (λ (l : LoopLabels). F.turns l.counter.0 ≡ G.turns l.counter.0)
        (func_loops (with_items marks f)) }
{}
