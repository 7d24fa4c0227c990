ghost use Rattle.std.specs.Prelude.{◌≡◌, ◌<◌, length, map, MatchOption, IfOk};
ghost use Rattle.mlir_ir.specs.Phrases as phrases;
ghost use Rattle.mlir_ir.specs.Phrases.{done};
ghost use Rattle.mlir_ir.specs.Source as source;
ghost use Rattle.mlir_scope.specs.Said.{said, with_part, spot_said, line_said};

use crate::tokens::is_token;
use mlir_ir::{Branch, Form, Terminal, Token, is_same_form};
use mlir_parse::terminal_of;
use std::alloc::{AllocError, Global};

/// One part of a line: a token, or a line of the grammar.
#[derive(Clone, Copy)]
pub enum Part<'a> {
    /// A token, with its number.
    Single(u32, &'a Token),
    /// A line, with the number of its first token and its parts.
    Line(Form, u32, &'a [Branch]),
}

/// A token by its number, with its bytes.
#[derive(Clone, Copy)]
pub struct Spot<'a> {
    pub at: u32,
    pub text: &'a [u8],
}

/// The parts of a line, with the number of its first token.
#[derive(Clone, Copy)]
pub struct Line<'a> {
    pub at: u32,
    pub parts: &'a [Branch],
}

/// The first part, with what stands behind it.
#[tactic(auto, using(crate::proofs::Parted::said_line))]
pub fn next<'a>(tokens: &'a [Token], parts: &'a [Branch]) -> Option<(Part<'a>, &'a [Branch])>
    ensures { MatchOption result (said tokens.now parts.now ≡ done)
        (λ r. (said tokens.now parts.now ≡ with_part tokens.now r.0 (said tokens.now r.1.now))
        × (length r.1.now < length parts.now)) }
{
    let mut rest = parts;
    while let Some((first, behind)) = rest.split_first() {
        rest = behind;
        match first.form {
            Form::Leaf => {
                if let Some(token) = tokens.get(first.token as usize) {
                    return Some((Part::Single(first.token, token), behind));
                }
            }
            form => return Some((
                Part::Line(form, first.token, first.parts.as_slice()),
                behind,
            )),
        }
    }
    None
}

/// The first token of that terminal, or a token without bytes where none stands there.
pub fn first_spot<'a>(tokens: &'a [Token], parts: &'a [Branch], terminal: Terminal) -> Spot<'a>
    ensures { spot_said result
        ≡ phrases.first_spot (phrases.spots terminal (said tokens.now parts.now)) }
{
    let mut rest = parts;
    'seek: while let Some((part, behind)) = next(tokens, rest) {
        rest = behind;
        if let Part::Single(at, token) = part {
            if is_token(token, terminal) {
                return Spot {
                    at,
                    text: token.text.as_bytes(),
                };
            }
        }
    }
    Spot { at: 0, text: &[] }
}

/// Whether a token of that terminal stands there.
pub fn has(tokens: &[Token], parts: &[Branch], terminal: Terminal) -> bool
    ensures { result ≡ phrases.has terminal (said tokens.now parts.now) }
{
    let mut rest = parts;
    'seek: while let Some((part, behind)) = next(tokens, rest) {
        rest = behind;
        if let Part::Single(_, token) = part {
            if is_token(token, terminal) {
                return true;
            }
        }
    }
    false
}

/// The parts of the first line of that form; nothing where there is none.
pub fn inside<'a>(tokens: &'a [Token], parts: &'a [Branch], form: Form) -> &'a [Branch]
    ensures { said tokens.now result.now ≡ phrases.inside form (said tokens.now parts.now) }
{
    let mut rest = parts;
    'seek: while let Some((part, behind)) = next(tokens, rest) {
        rest = behind;
        if let Part::Line(found, _, inner) = part {
            if is_same_form(form, found) {
                return inner;
            }
        }
    }
    rest
}

/// What stands behind the first token of that terminal; nothing where there is none.
pub fn behind<'a>(tokens: &'a [Token], parts: &'a [Branch], terminal: Terminal) -> &'a [Branch]
    ensures { said tokens.now result.now ≡ phrases.behind terminal (said tokens.now parts.now) }
{
    let mut rest = parts;
    'seek: while let Some((part, behind)) = next(tokens, rest) {
        rest = behind;
        if let Part::Single(_, token) = part {
            if is_token(token, terminal) {
                return behind;
            }
        }
    }
    rest
}

/// The lines of that form that stand directly there.
pub fn lines<'a>(
    alloc: Global,
    tokens: &'a [Token],
    parts: &'a [Branch],
    form: Form,
) -> Result<Vec<Line<'a>>, AllocError>
    ensures { IfOk result
        (λ v. map (line_said tokens.now) v.items ≡ phrases.lines form (said tokens.now parts.now)) }
{
    let mut found = Vec::new(alloc);
    let mut rest = parts;
    'seek: while let Some((part, behind)) = next(tokens, rest) {
        rest = behind;
        if let Part::Line(other, at, parts) = part {
            if is_same_form(form, other) {
                found.push(Line { at, parts })?;
            }
        }
    }
    Ok(found)
}

/// The terminal of the first part, which for an operation is that of its name.
pub fn head(tokens: &[Token], parts: &[Branch]) -> Terminal
    ensures { result ≡ source.head (said tokens.now parts.now) }
{
    match next(tokens, parts) {
        Some((Part::Single(_, token), _)) => terminal_of(token),
        _ => Terminal::OtherWord,
    }
}

/// The first part as a token, which for an operation is its name.
pub fn word<'a>(tokens: &'a [Token], parts: &'a [Branch]) -> Spot<'a>
    ensures { spot_said result ≡ source.word (said tokens.now parts.now) }
{
    match next(tokens, parts) {
        None => Spot { at: 0, text: &[] },
        Some((Part::Single(at, token), _)) => Spot {
            at,
            text: token.text.as_bytes(),
        },
        Some((Part::Line(_, at, _), _)) => Spot { at, text: &[] },
    }
}

/// The first token of that terminal before the first token `stop`, or a token without bytes where
/// none stands there.
pub fn first_spot_before<'a>(
    tokens: &'a [Token],
    parts: &'a [Branch],
    stop: Terminal,
    terminal: Terminal,
) -> Spot<'a>
    ensures { spot_said result
        ≡ phrases.first_spot
        (phrases.spots terminal (phrases.until stop (said tokens.now parts.now))) }
{
    let mut rest = parts;
    'seek: while let Some((part, behind)) = next(tokens, rest) {
        rest = behind;
        if let Part::Single(at, token) = part {
            if is_token(token, stop) {
                return Spot { at: 0, text: &[] };
            }
            if is_token(token, terminal) {
                return Spot {
                    at,
                    text: token.text.as_bytes(),
                };
            }
        }
    }
    Spot { at: 0, text: &[] }
}

/// The parts of the first line of that form before the first token `stop`; nothing where there is
/// none.
pub fn inside_before<'a>(
    tokens: &'a [Token],
    parts: &'a [Branch],
    stop: Terminal,
    form: Form,
) -> &'a [Branch]
    ensures { said tokens.now result.now
        ≡ phrases.inside form (phrases.until stop (said tokens.now parts.now)) }
{
    let mut rest = parts;
    'seek: while let Some((part, behind)) = next(tokens, rest) {
        rest = behind;
        match part {
            Part::Single(_, token) => {
                if is_token(token, stop) {
                    return &[];
                }
            }
            Part::Line(found, _, inner) => {
                if is_same_form(form, found) {
                    return inner;
                }
            }
        }
    }
    rest
}
