ghost use Rattle.std.specs.Prelude.{◌+◌, ℕ, length};
ghost use Rattle.fresh_scev.specs.Bits.{HaveBits};
ghost use Rattle.fresh_scev.specs.Facts.{Facts, IsFacts};
ghost use Rattle.mlir_ir.specs.Check.{IsWellFormed};
ghost use Rattle.mlir_ir.specs.declared.types.Func.{Func};
ghost use Rattle.pass_chain.specs.Given.{given_products, given_results};
ghost use Rattle.pass_copy.specs.Replaced.{Operation, StandsAt};
ghost use Rattle.pass_indvar.specs.Exits.{DoExitsHold};
ghost use Rattle.pass_indvar.specs.Reductions.{DoesProgressionHold};
ghost use Rattle.pass_unroll.specs.Copies.{ForLoop, operation_of};

/// In every run of a well-formed function the results of a loop have the numbers of the expressions
/// that its facts give them, where these fit. There is nothing to do: the contract is the law.
pub fn facts_give_exit_values()
    ensures { (f : Func) (F : Facts) (t : ℕ) (o : Operation) → IsWellFormed f → HaveBits f
        → IsFacts f F → StandsAt f t o → DoExitsHold f t (given_results F t o) }
{}

/// In every run of a well-formed function the first product of an `scf.for` whose expression is a
/// progression has its numbers. There is nothing to do: the contract is the law.
#[tactic(auto, using(crate::proofs::GivenProducts::given_progressions))]
pub fn facts_give_progressions()
    ensures { (f : Func) (F : Facts) (t : ℕ) (o : ForLoop) → IsWellFormed f → HaveBits f
        → IsFacts f F → StandsAt f t (operation_of o)
        → DoesProgressionHold f t (given_products F (t + 2 + length o.args) o.body) }
{}
