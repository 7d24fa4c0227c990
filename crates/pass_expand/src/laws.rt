ghost use Rattle.std.specs.Prelude.{ℕ, List};
ghost use Rattle.mlir_ir.specs.Runs.{Binding, Iteration, State, run_ops};
ghost use Rattle.mlir_ir.specs.declared.types.IrType.{IrType};
ghost use Rattle.pass_expand.specs.Computed.{AreInFront, IsComputed};
ghost use Rattle.pass_expand.specs.Expandable.{IsInSymbols};
ghost use Rattle.pass_expand.specs.Expanded.{expansion};
ghost use Rattle.scev_tree.specs.Polynomial.{Polynomial};

/// The operations of an expression in symbols that are in scope compute its value modulo 2 to the
/// width of the type, whatever is left of the budget. There is nothing to do: the contract is the
/// law.
#[tactic(auto, using(crate::proofs::ExpansionEnds::expansion_computes))]
pub fn expansions_compute()
    ensures { (fresh : ℕ → List ℕ) (ty : IrType) (k at : ℕ) (p : Polynomial) (fuel : ℕ)
        (around : List Iteration) (env : List Binding) (s : State)
        → IsInSymbols p → AreInFront at p
        → IsComputed ty at p env around s
        (run_ops (expansion fresh ty k at p) fuel at around env s) }
{}
