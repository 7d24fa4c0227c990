ghost use Rattle.std.specs.Prelude.{◌≡◌, ℕ, List};
ghost use Rattle.mlir_ir.specs.Trees.{put, none};
ghost use Rattle.mlir_ir.specs.Syntaxes.{StandsFor, IsSyntaxOf};
ghost use Rattle.mlir_ir.specs.declared.token.Token.{Token};
ghost use Rattle.mlir_ir.specs.declared.syntax.Syntax.{Syntax};
ghost use Rattle.mlir_parse.specs.Refused.{IsRefused};
ghost use Rattle.mlir_parse.specs.declared.parser.ParseFault.{ParseFault};
ghost use Rattle.mlir_parse.specs.declared.parser.ParseFault.TheVariants.{NoMemory};

/// A list of tokens has at most one tree, and a text has at most one syntax. The function does
/// nothing: its contract is the law.
pub fn one_syntax()
    ensures tokens { (tokens : List Token) (s t : Syntax) → StandsFor s tokens → StandsFor t tokens
        → (s.tokens ≡ t.tokens) × (put s.root none ≡ put t.root none) }
    ensures text { (text : List ℕ) (s t : Syntax) → IsSyntaxOf text s → IsSyntaxOf text t
        → (s.tokens ≡ t.tokens) × (s.length ≡ t.length) × (put s.root none ≡ put t.root none) }
{}

/// A text has at most one syntax error, and none if it has a syntax. So the text determines the
/// result of `parse`, unless allocation fails.
pub fn one_answer()
    ensures fault { (text : List ℕ) (e f : ParseFault) → IsRefused text e → IsRefused text f
        → (e ≡ NoMemory → ⊥) → (f ≡ NoMemory → ⊥) → e ≡ f }
    ensures no_fault { (text : List ℕ) (s : Syntax) (e : ParseFault) → IsSyntaxOf text s
        → IsRefused text e → e ≡ NoMemory }
{}
