ghost use Rattle.std.specs.Prelude.{◌≡◌, map, OnOk, IfOk};
ghost use Rattle.mlir_ir.specs.Phrases as phrases;
ghost use Rattle.mlir_ir.specs.Source as source;
ghost use Rattle.mlir_ir.specs.ScopeFaults as faults;
ghost use Rattle.mlir_ir.specs.declared.terminal.Terminal.TheVariants as terminals;
ghost use Rattle.mlir_scope.specs.Endings.{ending_said};
ghost use Rattle.mlir_scope.specs.Noted.{noted};
ghost use Rattle.mlir_scope.specs.Reading.{use_said, type_said, written_said};
ghost use Rattle.mlir_scope.specs.Said.{said};
ghost use Rattle.mlir_scope.specs.Scopes.{scope_said};

use crate::first::First;
use crate::phrase::{first_spot, first_spot_before, has, inside, inside_before};
use crate::said::{Use, ValueType, Written, types_in, uses_in};
use crate::scope::Scope;
use crate::uses::{note_types, note_uses, note_written, tys};
use mlir_ir::{Branch, Form, ScopeKind, Terminal, Token};
use std::alloc::{AllocError, Global};

/// The operands of a terminator with their types, and the number of the word that names it.
#[derive(Drop)]
pub struct Ending<'a> {
    pub word: u32,
    pub uses: Vec<Use<'a>>,
    pub types: Vec<Written>,
}

/// The operands in a terminator's list.
fn ending_of<'a>(
    alloc: Global,
    tokens: &'a [Token],
    word: u32,
    ends: &'a [Branch],
) -> Result<Ending<'a>, AllocError>
    ensures { IfOk result
        (λ e. ending_said e
        ≡ record {
          word = word;
          uses = source.listed_uses
              (said tokens.now ends.now);
          types = source.listed_types (said tokens.now ends.now);
        }) }
{
    let uses = uses_in(alloc, tokens, inside(tokens, ends, Form::Uses))?;
    let types = types_in(alloc, tokens, inside(tokens, ends, Form::Types))?;
    Ok(Ending { word, uses, types })
}

/// The terminator of that name.
pub fn ending_in<'a>(
    alloc: Global,
    tokens: &'a [Token],
    parts: &'a [Branch],
    terminal: Terminal,
) -> Result<Ending<'a>, AllocError>
    ensures { IfOk result
        (λ e. ending_said e ≡ source.ending terminal (said tokens.now parts.now)) }
{
    let word = first_spot(tokens, parts, terminal).at;
    ending_of(alloc, tokens, word, inside(tokens, parts, Form::Ends))
}

/// The condition's terminator, before `do`.
pub fn condition_ending<'a>(
    alloc: Global,
    tokens: &'a [Token],
    kind: &'a [Branch],
) -> Result<Ending<'a>, AllocError>
    ensures { IfOk result
        (λ e. ending_said e
        ≡ source.ending terminals.Condition (source.before_parts (said tokens.now kind.now))) }
{
    let word = first_spot_before(tokens, kind, Terminal::Do, Terminal::Condition).at;
    let ends = inside_before(tokens, kind, Terminal::Do, Form::Ends);
    ending_of(alloc, tokens, word, ends)
}

/// Notes what uses with as many types break.
#[tactic(auto, using(crate::proofs::Notes::noted_two, crate::proofs::Notes::same_lengths))]
pub fn note_listed(scope: &Scope, at: u32, uses: &[Use], types: &[ValueType], first: &mut First)
    ensures { first.new.best
        ≡ noted first.old.best
        (faults.listed_breaks (scope_said scope.now) at (map use_said uses.now)
        (map type_said types.now)) }
{
    note_types(scope, uses, types, first);
    first.note_if(uses.len() != types.len(), at, ScopeKind::Arity);
}

/// Notes what a terminator breaks, of which these types are wanted.
#[tactic(auto, using(crate::proofs::Notes::noted_four, crate::proofs::Notes::same_lengths))]
pub fn note_ending(
    alloc: Global,
    scope: &Scope,
    wanted: &[ValueType],
    e: &Ending,
    first: &mut First,
) -> Result<(), AllocError>
    ensures { OnOk result
        (first.new.best
        ≡ noted first.old.best
        (faults.ending_breaks (scope_said scope.now) (map type_said wanted.now)
        (ending_said e.now))) }
{
    let types = tys(alloc, &e.types)?;
    note_uses(scope, e.word, &e.uses, first);
    note_listed(scope, e.word, &e.uses, &types, first);
    note_written(&e.types, wanted, first);
    first.note_if(e.uses.len() != wanted.len(), e.word, ScopeKind::Arity);
    Ok(())
}

/// Notes what the end of a region breaks; `at` is the word of its operation.
pub fn note_region_ending(
    alloc: Global,
    tokens: &[Token],
    scope: &Scope,
    at: u32,
    wanted: &[ValueType],
    parts: &[Branch],
    first: &mut First,
) -> Result<(), AllocError>
    ensures { OnOk result
        (first.new.best
        ≡ noted first.old.best
        (faults.region_ending (scope_said scope.now) at (map type_said wanted.now)
        (said tokens.now parts.now))) }
{
    if has(tokens, parts, Terminal::Yield) {
        let e = ending_in(alloc, tokens, parts, Terminal::Yield)?;
        note_ending(alloc, scope, wanted, &e, first)
    } else {
        first.note_if(!wanted.is_empty(), at, ScopeKind::Arity);
        Ok(())
    }
}
