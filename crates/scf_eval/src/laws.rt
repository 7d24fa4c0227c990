ghost use Rattle.std.specs.Prelude.{◌≡◌, ℕ, List, IsTrue};
ghost use Rattle.std.specs.List.{list_all};
ghost use Rattle.arith_word.specs.declared.label.Label.{Label};
ghost use Rattle.mlir_ir.specs.Operations.{OpList};
ghost use Rattle.mlir_ir.specs.Runs.{Binding, Iteration, State, outcome_of, run_ops, run_items};
ghost use Rattle.mlir_ir.specs.Typed.{Types, TypedItems, TypedOps, knows, types_after, types_after_items};
ghost use Rattle.scf_eval.specs.InScope.{SameInScope, SameRun};

/// Only the values in scope decide what follows: where operations are well typed in a scope, two
/// runs of them from the same state are the same if each label in scope has the same number in
/// both. They end in the same way, with the same calls, the same replies and budget left, and the
/// same numbers of all values in scope behind the operations; and their reports are the same, with
/// the same numbers of the values in scope before the operations. So what a function returns, or
/// why its run stops, is the same too. There is nothing to do: the contract is the law.
pub fn scope_decides()
    ensures operations { (T : Types) (ops : OpList) (fuel at : ℕ) (around : List Iteration)
        (env other : List Binding) (s : State) → TypedOps T at ops → SameInScope T env other
        → SameRun T (types_after T at ops) (run_ops ops fuel at around env s)
        (run_ops ops fuel at around other s) }
    ensures items { (T : Types) (func k fuel : ℕ) (items : List OpList)
        (env other : List Binding) (s : State) → TypedItems T func k items
        → SameInScope T env other → SameRun T (types_after_items T func k items)
        (run_items func k items fuel env s) (run_items func k items fuel other s) }
    ensures outcomes { (T : Types) (func k fuel : ℕ) (items : List OpList) (ret : List Label)
        (env other : List Binding) (s : State) → TypedItems T func k items
        → IsTrue (list_all (knows (types_after_items T func k items)) ret)
        → SameInScope T env other
        → outcome_of ret (run_items func k items fuel env s).end
        ≡ outcome_of ret (run_items func k items fuel other s).end }
{}
