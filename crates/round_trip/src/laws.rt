ghost use Rattle.std.specs.Global.{Global};
ghost use Rattle.std.specs.Prelude.{◌≡◌, ◌↔◌, ◌<◌, ◌≤◌, ◌^◌, List, [], ◌∷◌, length, map, sum};
ghost use Rattle.mlir_ir.specs.Tokens.{AreTokens};
ghost use Rattle.mlir_ir.specs.Terminals.{terminal_of};
ghost use Rattle.mlir_ir.specs.Trees.{IsTreeOf};
ghost use Rattle.mlir_ir.specs.Syntaxes.{IsSyntaxOf};
ghost use Rattle.mlir_ir.specs.Phrases.{phrase_of, done};
ghost use Rattle.mlir_ir.specs.Canonical.{module_text};
ghost use Rattle.mlir_ir.specs.declared.module.Module.{Module};
ghost use Rattle.mlir_ir.specs.declared.types.Func.{Func};
ghost use Rattle.mlir_ir.specs.declared.syntax.Syntax.{Syntax};
ghost use Rattle.mlir_parse.specs.Refused.{IsRefused};
ghost use Rattle.mlir_parse.specs.declared.parser.ParseFault.{ParseFault};
ghost use Rattle.mlir_parse.specs.declared.parser.ParseFault.TheVariants.{NoMemory};
ghost use Rattle.round_trip.specs.Pieces.{placed, trees};
ghost use Rattle.round_trip.specs.PiecePhrases.{said};
ghost use Rattle.round_trip.specs.CanonicalPieces.{module_piece};
ghost use Rattle.round_trip.specs.CanonicalSyntaxes.{IsCanonicalSyntax};
ghost use Rattle.mlir_ir.specs.Reads.{Reads, phrase_in, plain_func};
ghost use Rattle.mlir_ir.specs.Resolved.{funcs_of};
ghost use Rattle.mlir_ir.specs.ScopeFaults.{text_breaks};
ghost use Rattle.round_trip.specs.Flat.{flat};
ghost use Rattle.round_trip.specs.KeepsLimits.{KeepsLimits, func_ops};
ghost use Rattle.round_trip.specs.Sound.{Each};
ghost use Rattle.mlir_ir.specs.Limits.{func_limit, item_limit, module_op_limit};
ghost use Rattle.round_trip.specs.Readable.{ReadableModule};
ghost use Rattle.round_trip.specs.Widths.{IsPrintable};

/// The canonical text of a module of well-formed functions, whose types have 1 to 64 bits and
/// whose calls fit, lexes to the tokens of its pieces. There is nothing to do: the contract is the
/// law.
pub fn canonical_tokens()
    ensures { (fs : List Func) → IsPrintable fs
        → AreTokens (module_text fs) (placed 0 (module_piece fs)) }
{}

/// The tree of its pieces derives these tokens, with at most twelve regions open.
pub fn canonical_tree()
    ensures { (fs : List Func) → IsPrintable fs
        → IsTreeOf (map terminal_of (placed 0 (module_piece fs))) (trees 0 (module_piece fs)) }
{}

/// The tree over the tokens says what the pieces say.
pub fn canonical_phrase()
    ensures { (fs : List Func) → IsPrintable fs
        → phrase_of (placed 0 (module_piece fs)) (trees 0 (module_piece fs))
        ≡ said 0 (module_piece fs) done }
{}

/// The syntaxes of a canonical text are its canonical ones, and it has no fault: parsing it can
/// fail for want of memory alone.
pub fn canonical_syntax()
    ensures syntax { (fs : List Func) (s : Syntax) → IsPrintable fs
        → IsSyntaxOf (module_text fs) s ↔ IsCanonicalSyntax fs s }
    ensures no_fault { (fs : List Func) (e : ParseFault) → IsPrintable fs
        → IsRefused (module_text fs) e → e ≡ NoMemory }
{}

/// Where the canonical text has less than 2^32 bytes, which a syntax counts in 32 bits, it has a
/// syntax: memory is all that parsing it needs.
pub fn canonical_syntax_exists()
    ensures { (alloc : Global) (fs : List Func) → IsPrintable fs
        → length (module_text fs) < 2 ^ 32
        → (s : Syntax) × IsSyntaxOf (module_text fs) s }
{}

/// The canonical text of a module of well-formed functions, whose types have 1 to 64 bits, stands
/// for the flat module: each use gets the label that its value has there.
pub fn canonical_functions()
    ensures { (m : Module) (s : Syntax) → IsPrintable m.funcs → IsSyntaxOf (module_text m.funcs) s
        → funcs_of (phrase_in s) ≡ flat m.funcs }
{}

/// A canonical text reads as no module but those whose functions are the flat module's.
pub fn canonical_readings()
    ensures { (m read : Module) → IsPrintable m.funcs → Reads (module_text m.funcs) read
        → map plain_func read.funcs ≡ flat m.funcs }
{}

/// The syntax of a canonical text breaks no rule exactly where the flat module keeps its limits;
/// then the text reads as the modules whose functions are the flat module's. A module keeps them
/// where it does so itself and no function has more operations than items are allowed.
pub fn canonical_texts_read()
    ensures limits { (m : Module) (s : Syntax) → IsPrintable m.funcs
        → IsSyntaxOf (module_text m.funcs) s
        → text_breaks s.tokens (phrase_in s) ≡ [] ↔ KeepsLimits (flat m.funcs) }
    ensures reads { (m read : Module) (s : Syntax) → IsPrintable m.funcs
        → KeepsLimits (flat m.funcs) → IsSyntaxOf (module_text m.funcs) s
        → map plain_func read.funcs ≡ flat m.funcs → Reads (module_text m.funcs) read }
    ensures kept { (m read : Module) → IsPrintable m.funcs → Reads (module_text m.funcs) read
        → KeepsLimits (flat m.funcs) }
    ensures within { (m : Module) → length m.funcs ≤ func_limit
        → sum (map (λ (f : Func). func_ops (plain_func f)) m.funcs) ≤ module_op_limit
        → Each (λ (f : Func). func_ops (plain_func f) ≤ item_limit) m.funcs
        → KeepsLimits (flat m.funcs) }
{}

/// Some module is as the laws ask.
pub fn some_module()
    ensures { (f : Func) × IsPrintable (f ∷ []) × ReadableModule (f ∷ [])
        × KeepsLimits (flat (f ∷ [])) }
{}
