ghost use Rattle.std.specs.Prelude.{◌≡◌, ◌<◌, ◌+◌, ◌^◌, ◌∷◌, ◌++◌, [], length, IfOk, MatchBool};
ghost use Rattle.mlir_ir.specs.Texts as texts;
ghost use Rattle.mlir_parse.specs.Seen.{AreLines};

use crate::fault::Fault;
use crate::rule::Rule;
use crate::tree::tree_of;
use mlir_ir::Terminal;
use std::alloc::{AllocError, Global};

/// The tokens that are tried to find whether an operation name or a type is accepted. Where any
/// operation or terminator is accepted, `arith.constant` is, so it is tried for all of them.
const PROBES: [Terminal; 4] = [
    Terminal::Module,
    Terminal::Function,
    Terminal::TypeWord,
    Terminal::Constant,
];

/// Whether the terminal is a bare word other than an operation name or a type.
fn is_unnamed(terminal: Terminal) -> bool
    ensures { result ≡ texts.is_unnamed terminal }
{
    matches!(
        terminal,
        Terminal::Private
            | Terminal::Truth
            | Terminal::Predicate
            | Terminal::Else
            | Terminal::To
            | Terminal::Step
            | Terminal::IterArgs
            | Terminal::Do
            | Terminal::Overflow
            | Terminal::Nsw
            | Terminal::Nuw
            | Terminal::OtherWord
    )
}

/// Whether the tokens, which are within the limit on open regions, are a prefix of a module's token
/// sequence.
#[tactic(auto, using(crate::proofs::Hopes::begins_of_tree, crate::proofs::Hopes::begins_by, crate::proofs::Hopes::begins_deep))]
fn begins_text(alloc: Global, lines: &[Rule], tokens: &[Terminal]) -> Result<bool, AllocError>
    requires lines { AreLines lines.now }
    requires few { length tokens.now < 2 ^ 32 }
    requires shallow { texts.IsShallow tokens.now }
    ensures { IfOk result
        (λ begins. MatchBool begins (texts.BeginsText tokens.now)
        (texts.BeginsText tokens.now → ⊥)) }
{
    match tree_of(alloc, lines, tokens) {
        Ok(_) => Ok(true),
        Err(Fault::Syntax(at)) => Ok(at == tokens.len()),
        Err(Fault::TooDeep(_)) => Ok(false),
        Err(Fault::NoMemory) => Err(AllocError),
    }
}

/// The tokens with one more appended.
fn with_next(
    alloc: Global,
    tokens: &[Terminal],
    next: Terminal,
) -> Result<Vec<Terminal>, AllocError>
    ensures { IfOk result (λ more. more.items ≡ tokens.now ++ next ∷ []) }
{
    let mut more = Vec::from_slice(alloc, tokens)?;
    more.push(next)?;
    Ok(more)
}

/// Whether an operation name or a type is accepted after these tokens.
#[tactic(auto, using(crate::proofs::Hopes::shallow_more, crate::proofs::Hopes::probe_flat))]
fn name_could_stand(alloc: Global, lines: &[Rule], tokens: &[Terminal]) -> Result<bool, AllocError>
    requires lines { AreLines lines.now }
    requires few { length tokens.now + 1 < 2 ^ 32 }
    requires shallow { texts.IsShallow tokens.now }
    ensures { IfOk result
        (λ could. MatchBool could (texts.NameCouldStand tokens.now)
        (texts.NameCouldStand tokens.now → ⊥)) }
{
    'probes: for probe in PROBES {
        let more = with_next(alloc, tokens, probe)?;
        if begins_text(alloc, lines, more.as_slice())? {
            return Ok(true);
        }
    }
    Ok(false)
}

/// Whether the unexpected token is a word other than an operation name or a type, where one of
/// these is accepted.
#[tactic(auto, using(crate::proofs::Hopes::other_named, crate::proofs::Hopes::other_end))]
pub fn is_not_here(
    alloc: Global,
    lines: &[Rule],
    tokens: &[Terminal],
    at: usize,
) -> Result<bool, AllocError>
    requires lines { AreLines lines.now }
    requires few { length tokens.now < 2 ^ 32 }
    requires fault { texts.IsSyntaxFault tokens.now at }
    ensures { IfOk result
        (λ here. MatchBool here (texts.IsNotHere tokens.now at)
        (texts.IsOtherFault tokens.now at)) }
{
    if at >= tokens.len() {
        return Ok(false);
    }
    if !is_unnamed(tokens[at]) {
        return Ok(false);
    }
    let (front, _) = tokens.split_at(at);
    name_could_stand(alloc, lines, front)
}
