ghost use Rattle.std.specs.Prelude.{◌≡◌, ◌↔◌, ℕ, ◌+◌, List};
ghost use Rattle.std.specs.List.{All};
ghost use Rattle.mlir_ir.specs.Check.{breaks, IsWellFormed};
ghost use Rattle.mlir_ir.specs.Places.{place_breaks, places, DoLabelsFit, DoLabelsRise, SeesOnly};
ghost use Rattle.mlir_ir.specs.Operations.{OpList};
ghost use Rattle.mlir_ir.specs.RunPrefixes.{IsFrontOf, IsPrefix};
ghost use Rattle.mlir_ir.specs.Runs.{Binding, Iteration, State, run_of, run_ops, trace_of};
ghost use Rattle.mlir_ir.specs.Values.{func_values};
ghost use Rattle.mlir_ir.specs.WellFormed.{IsNamed, IsSized, IsTyped, NoSize, OnlySize};
ghost use Rattle.mlir_ir.specs.declared.types.Func.{Func};

/// A function or declaration has no break exactly where it is typed, its values are named apart,
/// and it keeps the limits. There is nothing to do: the contract is the law.
pub fn well_formed_functions()
    ensures { (f : Func) → IsWellFormed f ↔ (IsTyped f × IsNamed f × IsSized f) }
{}

/// Where limits may be passed: no other rule is broken exactly where the function is typed and its
/// values are named apart, and no limit is passed exactly where it keeps the limits.
pub fn breaks_of_functions()
    ensures others { (f : Func) → OnlySize (breaks f) ↔ (IsTyped f × IsNamed f) }
    ensures limits { (f : Func) → NoSize (breaks f) ↔ IsSized f }
{}

/// The breaks of a function are those of its places. What is in scope at a place is a value of the
/// function, with its label, name and type. Where no item's labels run into the next one's, the
/// labels of the breaks never fall.
pub fn places_of_functions()
    ensures breaks { (f : Func) → place_breaks (places f) ≡ breaks f }
    ensures scopes { (f : Func) → All (SeesOnly (func_values f)) (places f) }
    ensures labels { (f : Func) → DoLabelsFit f → DoLabelsRise (breaks f) }
{}

/// The calls of a run are recorded in the order in which they begin, and none is taken back: where
/// operations end or stop, the trace begins with what it was before them.
pub fn traces_grow()
    ensures { (ops : OpList) (fuel at : ℕ) (around : List Iteration) (env : List Binding)
        (s : State) → IsPrefix s.trace (trace_of (run_ops ops fuel at around env s).end) }
{}

/// On a greater budget a run is the same, or it is one that the lesser budget cut: then its trace
/// and its reports begin with those of the cut run.
pub fn budgets_extend_runs()
    ensures { (f : Func) (args replies : List ℕ) (budget more : ℕ)
        → IsFrontOf (run_of f args replies budget) (run_of f args replies (budget + more)) }
{}
