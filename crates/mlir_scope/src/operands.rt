ghost use Rattle.std.specs.Prelude.{◌≡◌, ◌++◌, map, IfOk, OnOk};
ghost use Rattle.mlir_ir.specs.Resolved as resolved;
ghost use Rattle.mlir_ir.specs.ScopeFaults as faults;
ghost use Rattle.mlir_ir.specs.Source as source;
ghost use Rattle.mlir_scope.specs.Noted.{noted};
ghost use Rattle.mlir_scope.specs.Reading.{use_said};
ghost use Rattle.mlir_scope.specs.Said.{said};
ghost use Rattle.mlir_scope.specs.Scopes.{scope_said};

use crate::first::First;
use crate::kinds::inits_of;
use crate::own_uses::note_uses_there;
use crate::phrase::{head, inside};
use crate::said::{Use, uses_in};
use crate::scope::Scope;
use crate::text::Text;
use crate::uses::note_uses;
use mlir_ir::{Branch, Form, Terminal, Token};
use std::alloc::{AllocError, Global};

/// The uses of a loop's first values.
fn inits_used<'a>(
    alloc: Global,
    tokens: &'a [Token],
    kind: &'a [Branch],
) -> Result<Vec<Use<'a>>, AllocError>
    ensures { IfOk result
        (λ v. map use_said v.items
        ≡ resolved.inits_used (source.inits_of (said tokens.now kind.now))) }
{
    let inits = inits_of(alloc, tokens, kind)?;
    Ok(inits.uses)
}

/// The uses of the header of an `scf.for`: its bounds and its step, then the first values.
fn header_used<'a>(
    alloc: Global,
    tokens: &'a [Token],
    kind: &'a [Branch],
) -> Result<Vec<Use<'a>>, AllocError>
    ensures { IfOk result
        (λ v. map use_said v.items ≡ source.uses_in (said tokens.now kind.now)
        ++ resolved.inits_used (source.inits_of (said tokens.now kind.now))) }
{
    let mut found = uses_in(alloc, tokens, kind)?;
    let mut inits = inits_used(alloc, tokens, kind)?;
    found.append(&mut inits)?;
    Ok(found)
}

/// The uses of an operation itself, besides those in its regions.
#[tactic(auto, using(crate::proofs::OwnOperands::own_operands))]
pub fn operands<'a>(
    alloc: Global,
    tokens: &'a [Token],
    kind: &'a [Branch],
) -> Result<Vec<Use<'a>>, AllocError>
    ensures { IfOk result
        (λ v. map use_said v.items
        ≡ faults.operands (source.head (said tokens.now kind.now)) (said tokens.now kind.now)) }
{
    match head(tokens, kind) {
        Terminal::Call => uses_in(alloc, tokens, inside(tokens, kind, Form::Uses)),
        Terminal::For => header_used(alloc, tokens, kind),
        Terminal::While => inits_used(alloc, tokens, kind),
        _ => uses_in(alloc, tokens, kind),
    }
}

/// Notes what the uses of an operation itself break, at its word, which has that token.
fn note_gathered(
    text: &Text,
    scope: &Scope,
    kind: &[Branch],
    at: u32,
    first: &mut First,
) -> Result<(), AllocError>
    ensures { OnOk result (first.new.best ≡ noted first.old.best
        (faults.uses_breaks (scope_said scope.now) at
        (faults.operands (source.head (said text.now.tokens.now kind.now)) (said text.now.tokens.now kind.now)))) }
{
    let uses = operands(text.alloc, text.tokens, kind)?;
    note_uses(scope, at, &uses, first);
    Ok(())
}

/// Notes the same, without a list of the uses where they stand directly behind the word.
#[tactic(auto, using(crate::proofs::OwnOperands::own_operands))]
pub fn note_operands(
    text: &Text,
    scope: &Scope,
    kind: &[Branch],
    at: u32,
    first: &mut First,
) -> Result<(), AllocError>
    ensures { OnOk result (first.new.best ≡ noted first.old.best
        (faults.uses_breaks (scope_said scope.now) at
        (faults.operands (source.head (said text.now.tokens.now kind.now)) (said text.now.tokens.now kind.now)))) }
{
    match head(text.tokens, kind) {
        Terminal::Call => note_gathered(text, scope, kind, at, first),
        Terminal::For => note_gathered(text, scope, kind, at, first),
        Terminal::While => note_gathered(text, scope, kind, at, first),
        _ => {
            note_uses_there(text.tokens, scope, kind, at, first);
            Ok(())
        }
    }
}
