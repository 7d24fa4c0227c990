ghost use Rattle.std.specs.Prelude.{◌≡◌, ℕ, List};
ghost use Rattle.std.specs.List.{All};
ghost use Rattle.mlir_ir.specs.Check.{IsWellFormed};
ghost use Rattle.mlir_ir.specs.declared.types.Func.{Func};
ghost use Rattle.scev_script.specs.declared.reply.Reply.{Reply};
ghost use Rattle.scev_script.specs.declared.script.ValueName.{ValueName};
ghost use Rattle.scev_queries.specs.Answers.{Ask, IsScev, IsHold, IsAsOf};
ghost use Rattle.scev_queries.specs.Answers.{IsTurns, IsForgotten, IsPrinted, IsRun};

/// A module of well-formed functions has one answer to each command. There is nothing to do: the
/// contract is the law.
pub fn one_answer()
    ensures scev { (funcs : List Func) (name : List ℕ) (value : ValueName) (a b : Ask)
        → All IsWellFormed funcs → IsScev funcs name value a → IsScev funcs name value b → a ≡ b }
    ensures hold { (funcs : List Func) (name : List ℕ) (value : ValueName) (a b : Ask)
        → All IsWellFormed funcs → IsHold funcs name value a → IsHold funcs name value b → a ≡ b }
    ensures at { (funcs : List Func) (name : List ℕ) (value : ValueName) (k n : ℕ) (a b : Ask)
        → All IsWellFormed funcs → IsAsOf funcs name value k n a → IsAsOf funcs name value k n b
        → a ≡ b }
    ensures turns { (funcs : List Func) (name : List ℕ) (k : ℕ) (a b : Reply)
        → All IsWellFormed funcs → IsTurns funcs name k a → IsTurns funcs name k b → a ≡ b }
    ensures forget { (funcs : List Func) (name : List ℕ) (k : ℕ) (a b : Reply)
        → All IsWellFormed funcs → IsForgotten funcs name k a → IsForgotten funcs name k b → a ≡ b }
    ensures print { (funcs : List Func) (name : List ℕ) (a b : Reply)
        → All IsWellFormed funcs → IsPrinted funcs name a → IsPrinted funcs name b → a ≡ b }
    ensures run { (funcs : List Func) (name : List ℕ) (budget : ℕ) (args replies : List ℕ)
        (a b : Reply) → All IsWellFormed funcs → IsRun funcs name budget args replies a
        → IsRun funcs name budget args replies b → a ≡ b }
{}
