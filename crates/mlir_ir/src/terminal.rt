ghost use Rattle.std.specs.Prelude.{◌≡◌, ◌<◌};
ghost use Rattle.mlir_ir.specs.GrammarNumbers as numbers;

/// What a token is to the grammar: one of its words and marks, or a token of a kind.
#[derive(Clone, Copy, Debug, PartialEq, Eq)]
pub enum Terminal {
    /// `module`.
    Module,
    /// `func.func`.
    Function,
    /// `private`.
    Private,
    /// `index`, or `i1` to `i64`.
    TypeWord,
    /// `return` or `func.return`.
    Return,
    /// `arith.constant`.
    Constant,
    /// `true` or `false`.
    Truth,
    /// An operation on two values that takes no flags.
    Binary,
    /// `arith.addi`, `arith.subi`, `arith.muli` or `arith.shli`.
    FlaggedBinary,
    /// A cast that takes no flags.
    Cast,
    /// `arith.trunci`.
    FlaggedCast,
    /// `arith.cmpi`.
    Compare,
    /// A predicate of `arith.cmpi`.
    Predicate,
    /// `arith.select`.
    Select,
    /// `call` or `func.call`.
    Call,
    /// `scf.if`.
    If,
    /// `else`.
    Else,
    /// `scf.for`.
    For,
    /// `to`.
    To,
    /// `step`.
    Step,
    /// `iter_args`.
    IterArgs,
    /// `scf.while`.
    While,
    /// `scf.condition`.
    Condition,
    /// `do`.
    Do,
    /// `scf.yield`.
    Yield,
    /// `overflow`.
    Overflow,
    /// `nsw`.
    Nsw,
    /// `nuw`.
    Nuw,
    /// Any other word.
    OtherWord,
    /// A value.
    Value,
    /// A symbol.
    Symbol,
    /// A caret.
    Caret,
    /// A pick.
    Pick,
    /// A decimal number.
    Decimal,
    /// A number with `0x`.
    Hexadecimal,
    /// `(`.
    LeftParen,
    /// `)`.
    RightParen,
    /// `{`.
    LeftBrace,
    /// `}`.
    RightBrace,
    /// `<`.
    Less,
    /// `>`.
    Greater,
    /// `,`.
    Comma,
    /// `:`.
    Colon,
    /// `=`.
    Equals,
    /// `->`.
    Arrow,
    /// `-`.
    Minus,
}

/// The number of the terminal.
pub fn terminal_number(terminal: Terminal) -> u8
    ensures number { result ≡ numbers.number terminal }
    ensures small { result < 64 }
{
    match terminal {
        Terminal::Module => 0,
        Terminal::Function => 1,
        Terminal::Private => 2,
        Terminal::TypeWord => 3,
        Terminal::Return => 4,
        Terminal::Constant => 5,
        Terminal::Truth => 6,
        Terminal::Binary => 7,
        Terminal::FlaggedBinary => 8,
        Terminal::Cast => 9,
        Terminal::FlaggedCast => 10,
        Terminal::Compare => 11,
        Terminal::Predicate => 12,
        Terminal::Select => 13,
        Terminal::Call => 14,
        Terminal::If => 15,
        Terminal::Else => 16,
        Terminal::For => 17,
        Terminal::To => 18,
        Terminal::Step => 19,
        Terminal::IterArgs => 20,
        Terminal::While => 21,
        Terminal::Condition => 22,
        Terminal::Do => 23,
        Terminal::Yield => 24,
        Terminal::Overflow => 25,
        Terminal::Nsw => 26,
        Terminal::Nuw => 27,
        Terminal::OtherWord => 28,
        Terminal::Value => 29,
        Terminal::Symbol => 30,
        Terminal::Caret => 31,
        Terminal::Pick => 32,
        Terminal::Decimal => 33,
        Terminal::Hexadecimal => 34,
        Terminal::LeftParen => 35,
        Terminal::RightParen => 36,
        Terminal::LeftBrace => 37,
        Terminal::RightBrace => 38,
        Terminal::Less => 39,
        Terminal::Greater => 40,
        Terminal::Comma => 41,
        Terminal::Colon => 42,
        Terminal::Equals => 43,
        Terminal::Arrow => 44,
        Terminal::Minus => 45,
    }
}

/// Whether two terminals are the same.
pub fn is_same_terminal(a: Terminal, b: Terminal) -> bool
    ensures { result ≡ numbers.same a b }
{
    terminal_number(a) == terminal_number(b)
}
