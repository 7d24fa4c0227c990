ghost use Rattle.std.specs.Prelude.{◌≡◌, ◌++◌, ◌∷◌, [], map, OnOk, IfOk};
ghost use Rattle.mlir_ir.specs.Phrases as phrases;
ghost use Rattle.mlir_ir.specs.Resolved as resolved;
ghost use Rattle.mlir_ir.specs.Rules as rules;
ghost use Rattle.mlir_ir.specs.ScopeFaults as faults;
ghost use Rattle.mlir_ir.specs.Source as source;
ghost use Rattle.mlir_ir.specs.declared.terminal.Terminal.TheVariants as terminals;
ghost use Rattle.mlir_scope.specs.Reading.{type_said, written_said, defined_said};
ghost use Rattle.mlir_scope.specs.Said.{said};
ghost use Rattle.mlir_scope.specs.Scopes.{scope_said};
ghost use Rattle.mlir_scope.specs.Walks.{Notes, in_scope, for_values, while_values, after_values, breaks_of_header, bounds_breaks, wanted_types, listed_tys};

use crate::kinds::{inits_of, result_types};
use crate::loops::{after_params, note_carried};
use crate::phrase::{first_spot, inside};
use crate::results::push_args;
use crate::said::{Defined, ValueType, Written, defined_at, types_in, uses_in};
use crate::scope::Scope;
use crate::simple::note_truth;
use crate::text::Text;
use crate::uses::{note_differing, tys};
use crate::walked::Walked;
use mlir_ir::{Branch, Form, Terminal};
use std::alloc::AllocError;

/// The types of an operation's results, as they are listed.
pub fn wanted_of(text: &Text, kind: &[Branch]) -> Result<Vec<ValueType>, AllocError>
    ensures { IfOk result
        (λ v. map type_said v.items ≡ wanted_types (said text.now.tokens.now kind.now)) }
{
    let types = result_types(text.alloc, text.tokens, kind)?;
    tys(text.alloc, &types)
}

/// The types that are listed in a kind.
pub fn listed_of(text: &Text, kind: &[Branch]) -> Result<Vec<ValueType>, AllocError>
    ensures { IfOk result
        (λ v. map type_said v.items ≡ listed_tys (said text.now.tokens.now kind.now)) }
{
    let types = types_in(
        text.alloc,
        text.tokens,
        inside(text.tokens, kind, Form::Types),
    )?;
    tys(text.alloc, &types)
}

/// The type of an induction variable: the one that is written, or `index`.
fn variable_type(types: &[Written]) -> ValueType
    ensures { type_said result ≡ resolved.variable_type (map written_said types.now) }
{
    match types.first() {
        Some(t) => t.ty,
        None => ValueType::Index,
    }
}

/// Puts the counter and the carried values of an `scf.for` in scope.
#[tactic(auto, using(crate::proofs::Headers::named_carried))]
pub fn push_for<'a>(
    text: &Text<'a>,
    kind: &'a [Branch],
    scope: &mut Scope<'a>,
) -> Result<(), AllocError>
    ensures { OnOk result
        (scope_said scope.new ≡ scope_said scope.old
        ++ for_values (said text.now.tokens.now kind.now)
        (wanted_types (said text.now.tokens.now kind.now))) }
{
    let inits = inits_of(text.alloc, text.tokens, kind)?;
    let written = types_in(text.alloc, text.tokens, kind)?;
    let wanted = wanted_of(text, kind)?;
    let mut names = Vec::new(text.alloc);
    names.push(defined_at(first_spot(text.tokens, kind, Terminal::Value)))?;
    names.extend_from_slice(&inits.names)?;
    let mut types = Vec::new(text.alloc);
    types.push(variable_type(&written))?;
    types.extend_from_slice(&wanted)?;
    push_args(scope, 0, &names, &types)
}

/// Puts the carried values of an `scf.while` in scope.
#[tactic(auto, using(crate::proofs::Headers::named_carried))]
pub fn push_while<'a>(
    text: &Text<'a>,
    kind: &'a [Branch],
    scope: &mut Scope<'a>,
) -> Result<(), AllocError>
    ensures { OnOk result
        (scope_said scope.new ≡ scope_said scope.old
        ++ while_values (said text.now.tokens.now kind.now)) }
{
    let inits = inits_of(text.alloc, text.tokens, kind)?;
    let types = listed_of(text, kind)?;
    push_args(scope, 0, &inits.names, &types)
}

/// Puts the parameters behind `do` in scope.
#[tactic(auto, using(crate::proofs::Headers::named_params))]
pub fn push_after<'a>(
    text: &Text<'a>,
    kind: &'a [Branch],
    scope: &mut Scope<'a>,
) -> Result<(), AllocError>
    ensures { OnOk result
        (scope_said scope.new ≡ scope_said scope.old
        ++ after_values (said text.now.tokens.now kind.now)) }
{
    let params = after_params(text, kind)?;
    let types = tys(text.alloc, &params.types)?;
    push_args(scope, 0, &params.names, &types)
}

/// Notes a condition of an `scf.if` that is no `i1`.
pub fn note_if_header<'a>(
    text: &Text<'a>,
    kind: &'a [Branch],
    w: &mut Walked<'a>,
) -> Result<(), AllocError>
    ensures { OnOk result
        (Notes w.old w.new
        (faults.type_breaks (in_scope w.old) (source.uses_in (said text.now.tokens.now kind.now))
        (rules.truth ∷ []))) }
{
    let uses = uses_in(text.alloc, text.tokens, kind)?;
    note_truth(&w.scope, &uses, &mut w.first);
    Ok(())
}

/// Notes bounds and a step that don't have the counter's type.
fn note_bounds<'a>(
    text: &Text<'a>,
    kind: &'a [Branch],
    w: &mut Walked<'a>,
) -> Result<(), AllocError>
    ensures { OnOk result
        (Notes w.old w.new (bounds_breaks (in_scope w.old) (said text.now.tokens.now kind.now))) }
{
    let written = types_in(text.alloc, text.tokens, kind)?;
    let uses = uses_in(text.alloc, text.tokens, kind)?;
    note_differing(&w.scope, &uses, variable_type(&written), &mut w.first);
    Ok(())
}

/// The counter of an `scf.for`, alone in a list.
fn counter_of<'a>(text: &Text<'a>, kind: &'a [Branch]) -> Result<Vec<Defined<'a>>, AllocError>
    ensures { IfOk result
        (λ v. map defined_said v.items
        ≡ source.defined
        (phrases.first_spot (phrases.spots terminals.Value (said text.now.tokens.now kind.now)))
        ∷ []) }
{
    let mut made = Vec::with_capacity(text.alloc, 1)?;
    made.push(defined_at(first_spot(text.tokens, kind, Terminal::Value)))?;
    Ok(made)
}

/// Notes what the header of an `scf.for` breaks.
pub fn note_for_header<'a>(
    text: &Text<'a>,
    loops: u32,
    kind: &'a [Branch],
    w: &mut Walked<'a>,
) -> Result<(), AllocError>
    ensures { OnOk result
        (Notes w.old w.new
        (breaks_of_header loops (in_scope w.old) (said text.now.tokens.now kind.now))) }
{
    let wanted = wanted_of(text, kind)?;
    let counter = counter_of(text, kind)?;
    note_bounds(text, kind, w)?;
    note_carried(text, loops, kind, &counter, &wanted, w)?;
    Ok(())
}

/// Notes what the header of an `scf.while` breaks.
pub fn note_while_header<'a>(
    text: &Text<'a>,
    loops: u32,
    kind: &'a [Branch],
    w: &mut Walked<'a>,
) -> Result<(), AllocError>
    ensures { OnOk result
        (Notes w.old w.new
        (faults.carried_breaks (in_scope w.old) loops (said text.now.tokens.now kind.now) []
        (listed_tys (said text.now.tokens.now kind.now)))) }
{
    let types = listed_of(text, kind)?;
    note_carried(text, loops, kind, &[], &types, w)?;
    Ok(())
}
