ghost use Rattle.std.specs.Prelude.{◌≡◌, ◌≤◌, drop, min};
ghost use Rattle.mlir_ir.specs.Phrases as phrases;
ghost use Rattle.mlir_ir.specs.Resolved as resolved;
ghost use Rattle.mlir_ir.specs.ScopeFaults as faults;
ghost use Rattle.mlir_ir.specs.Source as source;
ghost use Rattle.mlir_ir.specs.Words.{bits_of};
ghost use Rattle.mlir_ir.specs.declared.terminal.Terminal.TheVariants as terminals;
ghost use Rattle.mlir_scope.specs.Noted.{noted};
ghost use Rattle.mlir_scope.specs.Said.{said};

use crate::digits::{CAP, capped};
use crate::first::First;
use crate::phrase::{Part, first_spot, has, next};
use crate::said::{ValueType, type_in};
use mlir_ir::{Branch, Form, ScopeKind, Terminal, Token, is_same_form};

/// The bits of an `index`, which no type has more of.
const INDEX_BITS: u32 = 64;

/// The digits behind the two bytes `0x`.
fn hexadecimal_digits(text: &[u8]) -> &[u8]
    ensures { result.now ≡ drop 2 text.now }
{
    match text.split_first() {
        Some((_, behind)) => match behind.split_first() {
            Some((_, digits)) => digits,
            None => behind,
        },
        None => text,
    }
}

/// The number that a literal writes, without its sign; `CAP` for one that is greater.
fn magnitude(tokens: &[Token], kind: &[Branch]) -> u128
    ensures { result ≡ min (resolved.magnitude (said tokens.now kind.now)) CAP }
{
    if has(tokens, kind, Terminal::Hexadecimal) {
        let text = first_spot(tokens, kind, Terminal::Hexadecimal).text;
        capped(16, hexadecimal_digits(text))
    } else {
        capped(10, first_spot(tokens, kind, Terminal::Decimal).text)
    }
}

/// The bits of the type of a line.
fn bits_in(tokens: &[Token], parts: &[Branch]) -> u32
    ensures value { result ≡ bits_of (source.type_named
        (phrases.first_spot (phrases.spots terminals.TypeWord (said tokens.now parts.now))).text) }
    ensures most { result ≤ INDEX_BITS }
{
    match type_in(tokens, parts) {
        ValueType::Int(bits) => bits,
        ValueType::Index => INDEX_BITS,
    }
}

/// Whether the literal is none of so many bits.
fn is_too_wide(tokens: &[Token], kind: &[Branch], bits: u32) -> bool
    requires { bits ≤ INDEX_BITS }
    ensures { result ≡ faults.is_too_wide bits (said tokens.now kind.now) }
{
    let number = magnitude(tokens, kind);
    if has(tokens, kind, Terminal::Minus) {
        number > 2u128.pow(bits.saturating_sub(1))
    } else {
        number >= 2u128.pow(bits)
    }
}

/// Notes a literal that the width of its type doesn't hold.
pub fn note_literal(tokens: &[Token], kind: &[Branch], first: &mut First)
    ensures { first.new.best ≡ noted first.old.best (faults.literal_breaks
        (said tokens.now kind.now) (source.types_in (said tokens.now kind.now))) }
{
    let mut rest = kind;
    'seek: while let Some((part, behind)) = next(tokens, rest) {
        rest = behind;
        if let Part::Line(form, at, inner) = part {
            if is_same_form(Form::TypeName, form) {
                let wide = is_too_wide(tokens, kind, bits_in(tokens, inner));
                first.note_if(wide, at, ScopeKind::WrongType);
                return;
            }
        }
    }
}
