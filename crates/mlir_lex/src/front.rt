ghost use Rattle.std.specs.Prelude.{◌≡◌, ◌≤◌, ◌<◌, ◌+◌, ◌^◌, ◌∷◌, ◌&&◌, ◌==◌, true, false, length, MatchOption};
ghost use Rattle.std.specs.List.{prefix_len};
ghost use Rattle.mlir_ir.specs.Names as names;
ghost use Rattle.mlir_ir.specs.Tokens as text;
ghost use Rattle.mlir_ir.specs.declared.token.TokenKind.{TokenKind};
ghost use Rattle.mlir_ir.specs.declared.token.TokenKind.TheVariants.{Number, Mark};
ghost use Rattle.mlir_lex.specs.Longest.{IsLongest};

use crate::bytes::{begins_word, is_hex_digit, is_mark_byte, is_word_byte};
use mlir_ir::{TokenKind, is_digit, is_name_byte};

/// The number of leading bytes that a word may have.
#[tactic(auto, using(crate::proofs::LongestRuns::prefix_within))]
fn word_bytes(bytes: &[u8]) -> usize
    ensures value { result ≡ prefix_len text.is_word_byte bytes.now }
    ensures within { result ≤ length bytes.now }
{
    bytes.iter().take_while(|b| is_word_byte(**b)).count()
}

/// The number of leading bytes that a name may have.
fn name_bytes(bytes: &[u8]) -> usize
    ensures { result ≡ prefix_len names.is_name_byte bytes.now }
{
    bytes.iter().take_while(|b| is_name_byte(**b)).count()
}

/// The number of leading decimal digits.
#[tactic(auto, using(crate::proofs::LongestRuns::prefix_within))]
fn digits(bytes: &[u8]) -> usize
    ensures value { result ≡ prefix_len names.is_digit bytes.now }
    ensures within { result ≤ length bytes.now }
{
    bytes.iter().take_while(|b| is_digit(**b)).count()
}

/// The number of leading hexadecimal digits.
#[tactic(auto, using(crate::proofs::LongestRuns::prefix_within))]
fn hex_digits(bytes: &[u8]) -> usize
    ensures value { result ≡ prefix_len text.is_hex_digit bytes.now }
    ensures within { result ≤ length bytes.now }
{
    bytes.iter().take_while(|b| is_hex_digit(**b)).count()
}

/// The length with a lead byte, 0 where nothing follows it.
fn led_len(len: usize) -> usize
    requires { len < 2 ^ 63 }
    ensures nothing { len ≡ 0 → result ≡ 0 }
    ensures more { 0 < len → result ≡ 1 + len }
{
    if len == 0 { 0 } else { 1 + len }
}

/// The length of the longest decimal number that the bytes begin with, 0 without one.
fn decimal_len(bytes: &[u8]) -> usize
    ensures { IsLongest text.is_decimal bytes.now result }
{
    digits(bytes)
}

/// The length of the longest name that the bytes begin with, 0 without one.
fn name_len(bytes: &[u8]) -> usize
    ensures { IsLongest names.is_name bytes.now result }
{
    match bytes.split_first() {
        None => 0,
        Some((first, rest)) => {
            if is_digit(*first) {
                1 + digits(rest)
            } else {
                name_bytes(bytes)
            }
        }
    }
}

/// The length of the longest `x` with hexadecimal digits that the bytes begin with, 0 without one.
fn x_len(bytes: &[u8]) -> usize
    ensures { IsLongest (text.is_led 120 text.is_hexadecimal) bytes.now result }
{
    match bytes.split_first() {
        None => 0,
        Some((first, rest)) => {
            if *first == b'x' {
                led_len(hex_digits(rest))
            } else {
                0
            }
        }
    }
}

/// The length of the longest `0x` with hexadecimal digits that the bytes begin with, 0 without one.
fn hex_len(first: u8, rest: &[u8]) -> usize
    ensures { IsLongest (text.is_led 48 (text.is_led 120 text.is_hexadecimal))
        (first ∷ rest.now) result }
{
    if first == b'0' {
        led_len(x_len(rest))
    } else {
        0
    }
}

/// The length of the longest number that begins with the digit.
fn number_len(first: u8, rest: &[u8]) -> usize
    requires { names.is_digit first ≡ true }
    ensures { IsLongest (text.is_token Number) (first ∷ rest.now) result }
{
    let hex = hex_len(first, rest);
    if hex == 0 { 1 + digits(rest) } else { hex }
}

/// Whether the first byte is this one.
pub fn is_next(byte: u8, bytes: &[u8]) -> bool
    ensures { result ≡ text.is_next byte bytes.now }
{
    match bytes.split_first() {
        None => false,
        Some((first, _)) => *first == byte,
    }
}

/// The length of the mark that begins with the byte: two for `->`, else one.
fn mark_len(first: u8, rest: &[u8]) -> usize
    requires { text.is_mark_byte first ≡ true }
    ensures { IsLongest (text.is_token Mark) (first ∷ rest.now) result }
{
    let arrow = first == b'-' && is_next(b'>', rest);
    if arrow { 2 } else { 1 }
}

/// The kind of the tokens that begin with the byte.
#[tactic(auto, using(crate::proofs::Fronts::of_no_kind))]
fn kind_of(first: u8) -> Option<TokenKind>
    ensures { MatchOption result ((kind : TokenKind) → text.begins kind first ≡ false)
        (λ kind. text.begins kind first ≡ true) }
{
    if begins_word(first) {
        Some(TokenKind::Word)
    } else if first == b'%' {
        Some(TokenKind::Value)
    } else if first == b'@' {
        Some(TokenKind::Symbol)
    } else if first == b'^' {
        Some(TokenKind::Caret)
    } else if first == b'#' {
        Some(TokenKind::Pick)
    } else if is_digit(first) {
        Some(TokenKind::Number)
    } else if is_mark_byte(first) {
        Some(TokenKind::Mark)
    } else {
        None
    }
}

/// The length of the longest token of the kind that begins with the byte, 0 without one.
fn kind_len(kind: TokenKind, first: u8, rest: &[u8]) -> usize
    requires { text.begins kind first ≡ true }
    ensures { IsLongest (text.is_token kind) (first ∷ rest.now) result }
{
    match kind {
        TokenKind::Word => 1 + word_bytes(rest),
        TokenKind::Value => led_len(name_len(rest)),
        TokenKind::Symbol => led_len(name_len(rest)),
        TokenKind::Caret => led_len(name_len(rest)),
        TokenKind::Pick => led_len(decimal_len(rest)),
        TokenKind::Number => number_len(first, rest),
        TokenKind::Mark => mark_len(first, rest),
    }
}

/// The kind and the length of the longest token that the bytes begin with.
pub fn token_front(bytes: &[u8]) -> Option<(TokenKind, usize)>
    ensures { MatchOption result (text.NoneBegins bytes.now)
        (λ f. text.IsFront bytes.now f.0 f.1) }
{
    match bytes.split_first() {
        None => None,
        Some((first, rest)) => match kind_of(*first) {
            None => None,
            Some(kind) => {
                let len = kind_len(kind, *first, rest);
                if len == 0 { None } else { Some((kind, len)) }
            }
        },
    }
}
