ghost use Rattle.std.specs.Prelude.{◌≡◌, ℕ, ◌%◌, ◌^◌, ◌≤◌, ◌==◌, List, length, Some, if◌then◌else◌};
ghost use Rattle.arith_word.specs.Operation.{cast_of, holds, value_of};
ghost use Rattle.arith_word.specs.declared.op.BinOp.{BinOp};
ghost use Rattle.arith_word.specs.declared.op.CastOp.{CastOp};
ghost use Rattle.arith_word.specs.declared.op.Pred.{Pred};
ghost use Rattle.mlir_ir.specs.Check.{IsWellFormed};
ghost use Rattle.mlir_ir.specs.Runs.{run_of};
ghost use Rattle.mlir_ir.specs.declared.types.Func.{Func};
ghost use Rattle.fresh_scev.specs.Bits.{HaveBits};
ghost use Rattle.fresh_scev.specs.Expressions.{Expression, symbol};
ghost use Rattle.fresh_scev.specs.Facts.{Facts, IsFacts, items_in};
ghost use Rattle.fresh_scev.specs.Rules.{IsBin, IsCast, IsComparison, IsSelected};
ghost use Rattle.scev_soundness.specs.Counted.{AllCounted, IsSplitOf};
ghost use Rattle.scev_soundness.specs.Holding.{AllHold};
ghost use Rattle.scev_soundness.specs.Numbering.{IsNumbered};

/// The rules of operations keep values: where the operands have the numbers of their expressions,
/// and the symbol of the result has the number that the operation gives, the result has the number
/// of its expression. There is nothing to do: the contract is the law.
pub fn rules_keep_values()
    ensures operations { (s : ℕ → ℕ) (w label : ℕ) (op : BinOp) (a b e : Expression) (x y v : ℕ)
        → 1 ≤ w → IsNumbered s w label a x → IsNumbered s w label b y → value_of op w x y ≡ Some v
        → s (symbol label) ≡ v % 2 ^ w → IsBin op w label a b e
        → IsNumbered s w label e (v % 2 ^ w) }
    ensures casts { (s : ℕ → ℕ) (w label from : ℕ) (op : CastOp) (a e : Expression) (x : ℕ) → 1 ≤ w
        → IsNumbered s from label a x → s (symbol label) ≡ cast_of op from x w % 2 ^ w
        → IsCast op w label a e → IsNumbered s w label e (cast_of op from x w % 2 ^ w) }
    ensures comparisons { (s : ℕ → ℕ) (w label from : ℕ) (pred : Pred) (a b e : Expression)
        (x y : ℕ) → 1 ≤ w → IsNumbered s from label a x → IsNumbered s from label b y
        → s (symbol label) ≡ (if holds pred from x y then 1 else 0) % 2 ^ w
        → IsComparison pred w label a b e
        → IsNumbered s w label e ((if holds pred from x y then 1 else 0) % 2 ^ w) }
    ensures selections { (s : ℕ → ℕ) (w label from : ℕ) (c a b e : Expression) (z x y : ℕ) → 1 ≤ w
        → IsNumbered s from label c z → IsNumbered s w label a x → IsNumbered s w label b y
        → s (symbol label) ≡ (if z == 0 then y else x) % 2 ^ w → IsSelected w label c a b e
        → IsNumbered s w label e ((if z == 0 then y else x) % 2 ^ w) }
{}

/// All reports of every run of a well-formed function hold by its facts: each value has the number
/// of its expression, wherever it is in scope, and each loop makes as many iterations as its trip
/// count says. There is nothing to do: the contract is the law.
#[tactic(auto, using(crate::proofs::Functions::function_sound))]
pub fn facts_hold()
    ensures { (f : Func) (F : Facts) (args replies : List ℕ) (budget : ℕ) → IsWellFormed f
        → HaveBits f → IsFacts f F → length args ≡ length f.args
        → AllHold F (run_of f args replies budget).reports }
{}

/// In every run of a well-formed function, iterations stay below the trip counts that are numbers:
/// where a loop makes n iterations, values behind its test are defined in iterations below n, and
/// those in front of it in no iteration beyond n. `split` is, for each loop, the label with which
/// what is behind its test begins: the body of an `scf.for`, the after region of an `scf.while`.
/// Operations are reached likewise: those with a label behind `split` in iterations below n, all
/// others in no iteration beyond n. There is nothing to do: the contract is the law.
#[tactic(auto, using(crate::proofs::CountedRuns::run_counted, crate::proofs::Splits::has_split))]
pub fn iterations_stay_below_counts()
    ensures splits { (f : Func) → IsWellFormed f
        → (split : ℕ → ℕ) × IsSplitOf split f.index 1 (items_in f.body) }
    ensures runs { (f : Func) (F : Facts) (split : ℕ → ℕ) (args replies : List ℕ) (budget : ℕ)
        → IsWellFormed f → HaveBits f → IsFacts f F → length args ≡ length f.args
        → IsSplitOf split f.index 1 (items_in f.body)
        → AllCounted F split (run_of f args replies budget).reports }
{}
