use arith_word::Text;

/// What a token of a text is.
#[derive(Clone, Copy, Debug, PartialEq, Eq)]
pub enum TokenKind {
    /// A letter or `_`, then letters, digits, `_`, `$` and `.`.
    Word,
    /// `%` and a name.
    Value,
    /// `@` and a name.
    Symbol,
    /// `^` and a name.
    Caret,
    /// `#` and decimal digits.
    Pick,
    /// Decimal digits, or `0x` and hexadecimal digits.
    Number,
    /// One of `( ) { } < > , : = -`, or `->`.
    Mark,
}

/// A token of a text: its own bytes, and the places of its first byte and of the byte behind it.
#[derive(Debug, Drop)]
pub struct Token {
    pub kind: TokenKind,
    pub text: Text,
    pub from: u32,
    pub to: u32,
}
