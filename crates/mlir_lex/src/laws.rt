ghost use Rattle.std.specs.Prelude.{◌≡◌, ℕ, List, ◌⊎◌};
ghost use Rattle.mlir_ir.specs.Tokens.{AreTokens, IsLexFault};
ghost use Rattle.mlir_ir.specs.declared.token.Token.{Token};

/// A text has exactly one token list or exactly one lexical error, and not both. So the text
/// determines the result of `tokens`, unless allocation fails. The function does nothing: its
/// contract is the law.
pub fn one_lexing()
    ensures one { (text : List ℕ)
        → ((found : List Token) × AreTokens text found) ⊎ ((at : ℕ) × IsLexFault text at) }
    ensures one_list { (text : List ℕ) (found other : List Token)
        → AreTokens text found → AreTokens text other → found ≡ other }
    ensures one_fault { (text : List ℕ) (at other : ℕ)
        → IsLexFault text at → IsLexFault text other → at ≡ other }
    ensures not_both { (text : List ℕ) (found : List Token) (at : ℕ)
        → AreTokens text found → IsLexFault text at → ⊥ }
{}
