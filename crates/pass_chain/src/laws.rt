ghost use Rattle.std.specs.Prelude.{◌≡◌, ℕ};
ghost use Rattle.fresh_scev.specs.Bits.{HaveBits};
ghost use Rattle.fresh_scev.specs.Expressions.{number};
ghost use Rattle.fresh_scev.specs.Facts.{Facts, IsFacts};
ghost use Rattle.mlir_ir.specs.Check.{IsWellFormed};
ghost use Rattle.mlir_ir.specs.Words.{bits_of};
ghost use Rattle.mlir_ir.specs.declared.types.Func.{Func};
ghost use Rattle.pass_copy.specs.Replaced.{StandsAt};
ghost use Rattle.pass_unroll.specs.Copies.{ForLoop, operation_of};
ghost use Rattle.pass_unroll.specs.Planned.{IsPlanned};
ghost use Rattle.pass_unroll.specs.declared.plan.Plan.{Plan};
ghost use Rattle.pass_chain.specs.Records.{IsWordOf};
ghost use Rattle.pass_chain.specs.declared.record.Rec.{Rec};
ghost use Rattle.trip_count.specs.declared.answer.Turns.TheVariants.{Count};

/// The facts of a well-formed function give a plan of an `scf.for` whose bounds and step are
/// numbers by them, and whose trip count is a number. There is nothing to do: the contract is the
/// law.
#[tactic(auto, using(crate::proofs::FactPlans::facts_plan))]
pub fn facts_give_plans()
    ensures { (f : Func) (F : Facts) (t : ℕ) (o : ForLoop) (plan : Plan) → IsWellFormed f
        → HaveBits f → IsFacts f F → StandsAt f t (operation_of o)
        → F.expr o.lower.0 ≡ number (bits_of o.iv.ty) plan.lower
        → F.expr o.upper.0 ≡ number (bits_of o.iv.ty) plan.upper
        → F.expr o.step.0 ≡ number (bits_of o.iv.ty) plan.step
        → F.turns t ≡ Count plan.count → IsPlanned f t plan }
{}

/// A record has one word, and a word one record. There is nothing to do: the contract is the law.
#[tactic(auto, using(crate::proofs::OneWord::one_word, crate::proofs::OneWord::one_record))]
pub fn records_and_words()
    ensures word { (r : Rec) (w v : ℕ) → IsWordOf r w → IsWordOf r v → w ≡ v }
    ensures record_of { (r q : Rec) (w : ℕ) → IsWordOf r w → IsWordOf q w → r ≡ q }
{}
