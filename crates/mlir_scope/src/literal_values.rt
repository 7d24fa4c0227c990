ghost use Rattle.std.specs.Prelude.{◌≡◌, ◌+◌, ◌-◌, ◌%◌, ◌<◌, ◌≤◌, ◌^◌, codes, drop, if◌then◌else◌, IfOk};
ghost use Rattle.std.specs.Str.{bytes_eq};
ghost use Rattle.mlir_ir.specs.Resolved as resolved;
ghost use Rattle.mlir_ir.specs.Phrases as phrases;
ghost use Rattle.mlir_ir.specs.declared.terminal.Terminal.TheVariants as terminals;
ghost use Rattle.mlir_ir.specs.Words.{bits_of};
ghost use Rattle.mlir_scope.specs.Reading.{type_said};
ghost use Rattle.mlir_scope.specs.Said.{said};

use crate::built_types::mask_of;
use crate::digits::{CAP, remainder};
use crate::phrase::{first_spot, has};
use crate::said::{ValueType, same_bytes};
use crate::unbuilt::Unbuilt;
use mlir_ir::{Branch, Terminal, Token};

/// What stands behind the `0x` of a number.
fn behind_prefix(text: &[u8]) -> &[u8]
    ensures { result.now ≡ drop 2 text.now }
{
    if text.len() < 2 { &[] } else { &text[2..] }
}

/// The remainder, by so many words of a width, of the number that a literal writes without its
/// sign.
fn rest_of(tokens: &[Token], kind: &[Branch], words: u128) -> u128
    requires some { 0 < words }
    requires most { words ≤ CAP }
    ensures value { result ≡ resolved.magnitude (said tokens.now kind.now) % words }
    ensures less { result < words }
{
    if has(tokens, kind, Terminal::Hexadecimal) {
        let text = first_spot(tokens, kind, Terminal::Hexadecimal).text;
        remainder(16, behind_prefix(text), words)
    } else {
        remainder(10, first_spot(tokens, kind, Terminal::Decimal).text, words)
    }
}

/// The reading of a number, or of its negative, among so many words of a width.
fn reading(words: u128, minus: bool, rest: u128) -> u128
    requires { rest < words }
    ensures read { result ≡ (if minus then (words - rest) % words else rest) }
    ensures less { result < words }
{
    if minus { (words - rest) % words } else { rest }
}

/// 1 for `true`.
fn truth(tokens: &[Token], kind: &[Branch]) -> u64
    ensures { result ≡ (if bytes_eq (phrases.first_spot (phrases.spots terminals.Truth
        (said tokens.now kind.now))).text (codes "true") then 1 else 0) }
{
    if same_bytes(
        first_spot(tokens, kind, Terminal::Truth).text,
        "true".as_bytes(),
    ) {
        1
    } else {
        0
    }
}

/// The unsigned reading of a literal of that type.
pub(crate) fn literal(tokens: &[Token], kind: &[Branch], ty: ValueType) -> Result<u64, Unbuilt>
    ensures { IfOk result (λ n. n
        ≡ resolved.literal (bits_of (type_said ty)) (said tokens.now kind.now)) }
{
    if has(tokens, kind, Terminal::Truth) {
        return Ok(truth(tokens, kind));
    }
    let words = u128::from(mask_of(ty)?) + 1;
    let rest = rest_of(tokens, kind, words);
    Ok(reading(words, has(tokens, kind, Terminal::Minus), rest) as u64)
}
