ghost use Rattle.std.specs.Prelude.{◌≡◌, ℕ, List, map};
ghost use Rattle.mlir_ir.specs.Calls.{AreNamedApart, ArePlaced, DoCallsFit};
ghost use Rattle.mlir_ir.specs.Reads.{IsScopeFault, Reads, plain_func};
ghost use Rattle.mlir_ir.specs.Syntaxes.{IsSyntaxOf};
ghost use Rattle.mlir_ir.specs.declared.module.Module.{Module};
ghost use Rattle.mlir_ir.specs.declared.scope_kind.ScopeKind.{ScopeKind};
ghost use Rattle.mlir_ir.specs.declared.syntax.Syntax.{Syntax};
ghost use Rattle.mlir_ir.specs.declared.types.Func.{Func};
ghost use Rattle.mlir_scope.specs.StandingFunctions.{AreChecked, AreDerivedFunctions, AreFunctionsOf};

/// Functions that a syntax without breaks stands for make a module: each has its place as its
/// index, and no name stands twice. Where the syntax's tree derives its tokens, calls fit their
/// callees, and each function is well formed. There is nothing to do: the contract is the law.
pub fn modules_of_syntaxes()
    ensures placed { (s : Syntax) (fs : List Func) → AreFunctionsOf s fs → ArePlaced fs }
    ensures apart { (s : Syntax) (fs : List Func) → AreFunctionsOf s fs → AreNamedApart fs }
    ensures calls { (s : Syntax) (fs : List Func) → AreDerivedFunctions s fs → DoCallsFit fs }
    ensures checked { (s : Syntax) (fs : List Func) → AreDerivedFunctions s fs → AreChecked fs }
{}

/// The functions of a module that bytes read as are well formed.
pub fn modules_of_bytes()
    ensures { (bytes : List ℕ) (m : Module) → Reads bytes m → AreChecked m.funcs }
{}

/// Bytes read as at most one list of functions and have at most one scope fault, and bytes that read
/// as a module have none.
pub fn one_reading()
    ensures functions { (bytes : List ℕ) (m n : Module) → Reads bytes m → Reads bytes n
        → map plain_func m.funcs ≡ map plain_func n.funcs }
    ensures fault { (bytes : List ℕ) (s t : Syntax) (i j : ℕ) (k l : ScopeKind)
        → IsSyntaxOf bytes s → IsSyntaxOf bytes t → IsScopeFault s i k → IsScopeFault t j l
        → (i ≡ j) × (k ≡ l) }
    ensures not_both { (bytes : List ℕ) (m : Module) (s : Syntax) (at : ℕ) (kind : ScopeKind)
        → Reads bytes m → IsSyntaxOf bytes s → IsScopeFault s at kind → ⊥ }
{}
