ghost use Rattle.std.specs.Prelude.{◌≡◌, map, IfOk};
ghost use Rattle.std.specs.Str.{bytes_eq};
ghost use Rattle.std.specs.Str.Parse.{digits_value};
ghost use Rattle.mlir_ir.specs.Phrases as phrases;
ghost use Rattle.mlir_ir.specs.Source as source;
ghost use Rattle.mlir_ir.specs.Source.{type_named};
ghost use Rattle.mlir_ir.specs.declared.syntax.Form.TheVariants as forms;
ghost use Rattle.mlir_ir.specs.declared.terminal.Terminal.TheVariants as terminals;
ghost use Rattle.mlir_scope.specs.Said.{said, spot_said};
ghost use Rattle.mlir_scope.specs.Reading.{use_said, packed_said, defined_said, written_said, type_said};

use crate::digits::capped;
use crate::phrase::{Part, Spot, first_spot, has, next};
use crate::tokens::is_token;
use mlir_ir::{Branch, Form, Terminal, Token, is_same_form};
use std::alloc::{AllocError, Global};

/// A name that is defined, at its token.
#[derive(Clone, Copy)]
pub struct Defined<'a> {
    pub at: u32,
    pub name: &'a [u8],
}

/// Results that are defined together; the digits of their number.
#[derive(Clone, Copy)]
pub struct Packed<'a> {
    pub at: u32,
    pub name: &'a [u8],
    pub count: &'a [u8],
}

/// A use of a value; the digits of its pick, none for result 0.
#[derive(Clone, Copy)]
pub struct Use<'a> {
    pub at: u32,
    pub name: &'a [u8],
    pub pick: &'a [u8],
}

/// A type of a value, by its width in bits where it is no `index`. A width of 0 stands for a type
/// that no token writes.
#[derive(Clone, Copy)]
pub enum ValueType {
    Int(u32),
    Index,
}

/// A written type, at its token.
#[derive(Clone, Copy)]
pub struct Written {
    pub at: u32,
    pub ty: ValueType,
}

/// Whether the bytes are the same.
pub fn same_bytes(a: &[u8], b: &[u8]) -> bool
    ensures { result ≡ bytes_eq a.now b.now }
{
    a == b
}

/// The name without the sign before it.
pub(crate) fn unsigned(text: &[u8]) -> &[u8]
    ensures { result.now ≡ source.unsigned text.now }
{
    match text.split_first() {
        Some((_, name)) => name,
        None => text,
    }
}

/// The definition that a token is.
pub fn defined_at(spot: Spot) -> Defined
    ensures { defined_said result ≡ source.defined (spot_said spot.entry) }
{
    Defined {
        at: spot.at,
        name: unsigned(spot.text),
    }
}

/// The use of a line.
pub(crate) fn use_of<'a>(tokens: &'a [Token], at: u32, parts: &'a [Branch]) -> Use<'a>
    ensures { use_said result
        ≡ source.use_of (record { at = at; parts = said tokens.now parts.now }) }
{
    Use {
        at,
        name: unsigned(first_spot(tokens, parts, Terminal::Value).text),
        pick: unsigned(first_spot(tokens, parts, Terminal::Pick).text),
    }
}

/// The digits of the number of results of a pack, which is 1 where none stands.
#[tactic(auto, using(crate::proofs::Numbered::number_written, crate::proofs::Numbered::number_left_out))]
fn count_digits<'a>(tokens: &'a [Token], parts: &'a [Branch]) -> &'a [u8]
    ensures { digits_value 10 result.now
        ≡ source.first_number
        (map (λ (s : phrases.Spot). s.text)
        (phrases.spots terminals.Decimal (said tokens.now parts.now))) 1 }
{
    if has(tokens, parts, Terminal::Decimal) {
        first_spot(tokens, parts, Terminal::Decimal).text
    } else {
        "1".as_bytes()
    }
}

/// The pack of a line.
fn pack_of<'a>(tokens: &'a [Token], at: u32, parts: &'a [Branch]) -> Packed<'a>
    ensures { packed_said result
        ≡ source.packed (record { at = at; parts = said tokens.now parts.now }) }
{
    Packed {
        at,
        name: unsigned(first_spot(tokens, parts, Terminal::Value).text),
        count: count_digits(tokens, parts),
    }
}

/// The type of a line.
pub fn type_in(tokens: &[Token], parts: &[Branch]) -> ValueType
    ensures { type_said result
        ≡ type_named
        (phrases.first_spot (phrases.spots terminals.TypeWord (said tokens.now parts.now))).text }
{
    let text = first_spot(tokens, parts, Terminal::TypeWord).text;
    if same_bytes(text, "index".as_bytes()) {
        ValueType::Index
    } else {
        ValueType::Int(capped(10, unsigned(text)) as u32)
    }
}

/// The uses that stand directly there.
pub fn uses_in<'a>(
    alloc: Global,
    tokens: &'a [Token],
    parts: &'a [Branch],
) -> Result<Vec<Use<'a>>, AllocError>
    ensures { IfOk result (λ v. map use_said v.items ≡ source.uses_in (said tokens.now parts.now)) }
{
    let mut found = Vec::new(alloc);
    let mut rest = parts;
    'seek: while let Some((part, behind)) = next(tokens, rest) {
        rest = behind;
        if let Part::Line(form, at, inner) = part {
            if is_same_form(Form::Use, form) {
                found.push(use_of(tokens, at, inner))?;
            }
        }
    }
    Ok(found)
}

/// The types that stand directly there.
pub fn types_in<'a>(
    alloc: Global,
    tokens: &'a [Token],
    parts: &'a [Branch],
) -> Result<Vec<Written>, AllocError>
    ensures { IfOk result
        (λ v. map written_said v.items ≡ source.types_in (said tokens.now parts.now)) }
{
    let mut found = Vec::new(alloc);
    let mut rest = parts;
    'seek: while let Some((part, behind)) = next(tokens, rest) {
        rest = behind;
        if let Part::Line(form, at, inner) = part {
            if is_same_form(Form::TypeName, form) {
                let ty = type_in(tokens, inner);
                found.push(Written { at, ty })?;
            }
        }
    }
    Ok(found)
}

/// The packs of results that stand directly there.
pub fn packs_in<'a>(
    alloc: Global,
    tokens: &'a [Token],
    parts: &'a [Branch],
) -> Result<Vec<Packed<'a>>, AllocError>
    ensures { IfOk result
        (λ v. map packed_said v.items
        ≡ map source.packed (phrases.lines forms.Pack (said tokens.now parts.now))) }
{
    let mut found = Vec::new(alloc);
    let mut rest = parts;
    'seek: while let Some((part, behind)) = next(tokens, rest) {
        rest = behind;
        if let Part::Line(form, at, inner) = part {
            if is_same_form(Form::Pack, form) {
                found.push(pack_of(tokens, at, inner))?;
            }
        }
    }
    Ok(found)
}

/// The names of values that stand directly there.
pub fn names_in<'a>(
    alloc: Global,
    tokens: &'a [Token],
    parts: &'a [Branch],
) -> Result<Vec<Defined<'a>>, AllocError>
    ensures { IfOk result
        (λ v. map defined_said v.items ≡ source.names_in (said tokens.now parts.now)) }
{
    let mut found = Vec::new(alloc);
    let mut rest = parts;
    'seek: while let Some((part, behind)) = next(tokens, rest) {
        rest = behind;
        if let Part::Single(at, token) = part {
            if is_token(token, Terminal::Value) {
                let text = token.text.as_bytes();
                found.push(defined_at(Spot { at, text }))?;
            }
        }
    }
    Ok(found)
}
