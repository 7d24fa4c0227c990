ghost use Rattle.std.specs.Prelude.{◌≡◌, ◌&&◌, ◌||◌, ◌==◌, nat_le, drop};
ghost use Rattle.mlir_ir.specs.Tokens.{is_next};
ghost use Rattle.mlir_ir.specs.Terminals as terminals;

use mlir_ir::{Terminal, Token, TokenKind};

/// Whether the byte is in the range.
fn is_between(first: u8, digit: u8, last: u8) -> bool
    ensures { result ≡ (nat_le first digit && nat_le digit last) }
{
    first <= digit && digit <= last
}

/// Whether the bytes are a width from 1 to 64.
fn is_width(digits: &[u8]) -> bool
    ensures { result ≡ terminals.is_width digits.now }
{
    match digits {
        [d] => is_between(b'1', *d, b'9'),
        [d, e] => {
            (is_between(b'1', *d, b'5') && is_between(b'0', *e, b'9'))
                || (*d == b'6' && is_between(b'0', *e, b'4'))
        }
        _ => false,
    }
}

/// Whether the word is a type: `index`, or `i1` to `i64`.
fn is_type_word(word: &str) -> bool
    ensures { result ≡ terminals.is_type_word word.now }
{
    word == "index" || is_integer(word.as_bytes())
}

/// Whether the bytes are `i` and a width.
fn is_integer(word: &[u8]) -> bool
    ensures { result ≡ terminals.is_integer word.now }
{
    match word.split_first() {
        None => false,
        Some((first, rest)) => *first == b'i' && is_width(rest),
    }
}

/// Whether the word is a binary operation that takes overflow flags.
fn is_flagged_binary(word: &str) -> bool
    ensures { result ≡ terminals.is_flagged_binary word.now }
{
    word == "arith.addi" || word == "arith.subi" || word == "arith.muli" || word == "arith.shli"
}

/// Whether the word is a binary operation that takes no overflow flags.
fn is_binary(word: &str) -> bool
    ensures { result ≡ terminals.is_binary word.now }
{
    word == "arith.andi"
        || word == "arith.ori"
        || word == "arith.xori"
        || word == "arith.minsi"
        || word == "arith.maxsi"
        || word == "arith.minui"
        || word == "arith.maxui"
        || word == "arith.shrui"
        || word == "arith.shrsi"
        || word == "arith.divui"
        || word == "arith.remui"
        || word == "arith.divsi"
        || word == "arith.remsi"
}

/// Whether the word is a cast that takes no overflow flags.
fn is_cast(word: &str) -> bool
    ensures { result ≡ terminals.is_cast word.now }
{
    word == "arith.extsi"
        || word == "arith.extui"
        || word == "arith.index_cast"
        || word == "arith.index_castui"
}

/// Whether the word is a predicate of `arith.cmpi`.
fn is_predicate(word: &str) -> bool
    ensures { result ≡ terminals.is_predicate word.now }
{
    word == "eq"
        || word == "ne"
        || word == "slt"
        || word == "sle"
        || word == "sgt"
        || word == "sge"
        || word == "ult"
        || word == "ule"
        || word == "ugt"
        || word == "uge"
}

/// Whether the word is `return` or `func.return`.
fn is_return(word: &str) -> bool
    ensures { result ≡ terminals.is_return word.now }
{
    word == "return" || word == "func.return"
}

/// Whether the word is a call.
fn is_call(word: &str) -> bool
    ensures { result ≡ terminals.is_call word.now }
{
    word == "call" || word == "func.call"
}

/// Whether the word is a truth value.
fn is_truth(word: &str) -> bool
    ensures { result ≡ terminals.is_truth word.now }
{
    word == "true" || word == "false"
}

/// The terminal of a word of the `arith` dialect.
fn arith_terminal(word: &str) -> Terminal
    ensures { result ≡ terminals.arith_terminal word.now }
{
    if is_flagged_binary(word) {
        Terminal::FlaggedBinary
    } else if is_binary(word) {
        Terminal::Binary
    } else if word == "arith.constant" {
        Terminal::Constant
    } else if word == "arith.cmpi" {
        Terminal::Compare
    } else if word == "arith.select" {
        Terminal::Select
    } else if word == "arith.trunci" {
        Terminal::FlaggedCast
    } else if is_cast(word) {
        Terminal::Cast
    } else {
        Terminal::OtherWord
    }
}

/// The terminal of a word of the `scf` dialect.
fn scf_terminal(word: &str) -> Terminal
    ensures { result ≡ terminals.scf_terminal word.now }
{
    if word == "scf.yield" {
        Terminal::Yield
    } else if word == "scf.for" {
        Terminal::For
    } else if word == "scf.if" {
        Terminal::If
    } else if word == "scf.while" {
        Terminal::While
    } else if word == "scf.condition" {
        Terminal::Condition
    } else {
        Terminal::OtherWord
    }
}

/// The terminal of a word of the `func` dialect or of a module.
fn func_terminal(word: &str) -> Terminal
    ensures { result ≡ terminals.func_terminal word.now }
{
    if is_return(word) {
        Terminal::Return
    } else if is_call(word) {
        Terminal::Call
    } else if word == "func.func" {
        Terminal::Function
    } else if word == "private" {
        Terminal::Private
    } else if word == "module" {
        Terminal::Module
    } else {
        Terminal::OtherWord
    }
}

/// The terminal of a word inside an operation.
fn inner_terminal(word: &str) -> Terminal
    ensures { result ≡ terminals.inner_terminal word.now }
{
    if word == "to" {
        Terminal::To
    } else if word == "step" {
        Terminal::Step
    } else if word == "iter_args" {
        Terminal::IterArgs
    } else if word == "else" {
        Terminal::Else
    } else if word == "do" {
        Terminal::Do
    } else if is_truth(word) {
        Terminal::Truth
    } else {
        flag_terminal(word)
    }
}

/// The terminal of a word of overflow flags, or of a predicate.
fn flag_terminal(word: &str) -> Terminal
    ensures { result ≡ terminals.flag_terminal word.now }
{
    if word == "overflow" {
        Terminal::Overflow
    } else if word == "nsw" {
        Terminal::Nsw
    } else if word == "nuw" {
        Terminal::Nuw
    } else if is_predicate(word) {
        Terminal::Predicate
    } else {
        Terminal::OtherWord
    }
}

/// The terminal of a word.
fn word_terminal(word: &str) -> Terminal
    ensures { result ≡ terminals.word_terminal word.now }
{
    if is_type_word(word) {
        return Terminal::TypeWord;
    }
    match arith_terminal(word) {
        Terminal::OtherWord => match scf_terminal(word) {
            Terminal::OtherWord => match func_terminal(word) {
                Terminal::OtherWord => inner_terminal(word),
                terminal => terminal,
            },
            terminal => terminal,
        },
        terminal => terminal,
    }
}

/// The terminal of a mark.
fn mark_terminal(word: &str) -> Terminal
    ensures { result ≡ terminals.mark_terminal word.now }
{
    if word == "(" {
        Terminal::LeftParen
    } else if word == ")" {
        Terminal::RightParen
    } else if word == "{" {
        Terminal::LeftBrace
    } else if word == "}" {
        Terminal::RightBrace
    } else if word == "," {
        Terminal::Comma
    } else if word == ":" {
        Terminal::Colon
    } else if word == "=" {
        Terminal::Equals
    } else if word == "->" {
        Terminal::Arrow
    } else if word == "<" {
        Terminal::Less
    } else if word == ">" {
        Terminal::Greater
    } else {
        Terminal::Minus
    }
}

/// Whether the second byte is `x`, which no decimal number has.
fn is_hexadecimal(number: &[u8]) -> bool
    ensures { result ≡ is_next 120 (drop 1 number.now) }
{
    number.len() > 1 && number[1] == b'x'
}

/// The terminal of a number.
fn number_terminal(number: &str) -> Terminal
    ensures { result ≡ terminals.number_terminal number.now }
{
    if is_hexadecimal(number.as_bytes()) {
        Terminal::Hexadecimal
    } else {
        Terminal::Decimal
    }
}

/// The terminal of the token.
pub fn terminal_of(token: &Token) -> Terminal
    ensures { result ≡ terminals.terminal_of token.now }
{
    match token.kind {
        TokenKind::Word => word_terminal(token.text.as_str()),
        TokenKind::Value => Terminal::Value,
        TokenKind::Symbol => Terminal::Symbol,
        TokenKind::Caret => Terminal::Caret,
        TokenKind::Pick => Terminal::Pick,
        TokenKind::Number => number_terminal(token.text.as_str()),
        TokenKind::Mark => mark_terminal(token.text.as_str()),
    }
}
