ghost use Rattle.std.specs.Prelude.{◌≡◌, ◌++◌, ◌∷◌, [], drop, take, map, OnOk};
ghost use Rattle.mlir_ir.specs.Rules as rules;
ghost use Rattle.mlir_ir.specs.ScopeFaults as faults;
ghost use Rattle.mlir_ir.specs.Source as source;
ghost use Rattle.mlir_scope.specs.Functions.{Called, signature_said};
ghost use Rattle.mlir_scope.specs.Noted.{noted};
ghost use Rattle.mlir_scope.specs.Reading.{use_said, written_said};
ghost use Rattle.mlir_scope.specs.Said.{said};
ghost use Rattle.mlir_scope.specs.Scopes.{scope_said};
ghost use Rattle.mlir_scope.specs.Texts.{funcs_in};

use crate::endings::note_listed;
use crate::first::First;
use crate::kinds::{note_cast, note_same, result_types};
use crate::literals::note_literal;
use crate::own_uses::note_same_there;
use crate::phrase::{first_spot, head, inside, word};
use crate::said::{Use, ValueType, Written, defined_at, types_in, uses_in};
use crate::scope::Scope;
use crate::signatures::Signature;
use crate::text::Text;
use crate::uses::{note_types, note_written, tys};
use mlir_ir::limits::ARG_LIMIT;
use mlir_ir::{Branch, Form, ScopeKind, Terminal};
use std::alloc::AllocError;

/// Notes a condition that is no `i1`.
pub fn note_truth(scope: &Scope, uses: &[Use], first: &mut First)
    ensures { first.new.best
        ≡ noted first.old.best
        (faults.type_breaks (scope_said scope.now) (map use_said uses.now) (rules.truth ∷ [])) }
{
    let truth = [ValueType::Int(1)];
    note_types(scope, uses, &truth, first);
}

/// Notes the first use that is one too many.
#[tactic(auto, using(crate::proofs::Overs::over_found, crate::proofs::Overs::over_past))]
fn note_over_uses(limit: usize, uses: &[Use], first: &mut First)
    ensures { first.new.best
        ≡ noted first.old.best
        (faults.over limit (map (λ (u : source.Use). u.at) (map use_said uses.now))) }
{
    if let Some(u) = uses.get(limit) {
        first.note_if(true, u.at, ScopeKind::Limit);
    }
}

/// Notes a condition that is no `i1`, and choices that don't have the written type.
#[tactic(auto, using(crate::proofs::Notes::noted_two, crate::proofs::Simples::select_parts, crate::proofs::Simples::select_nothing))]
fn note_select(scope: &Scope, uses: &[Use], types: &[Written], first: &mut First)
    ensures { first.new.best
        ≡ noted first.old.best
        (faults.type_breaks (scope_said scope.now) (take 1 (map use_said uses.now))
        (rules.truth ∷ [])
        ++ faults.same_written (scope_said scope.now) (drop 1 (map use_said uses.now))
        (map written_said types.now)) }
{
    if let Some((_, choices)) = uses.split_first() {
        note_truth(scope, uses, first);
        note_same(scope, choices, types, first);
    }
}

/// Notes the types of a call that aren't those of its callee.
#[tactic(auto, using(crate::proofs::Notes::noted_three, crate::proofs::Notes::same_lengths))]
fn note_call_types(
    text: &Text,
    kind: &[Branch],
    callee: &Signature,
    first: &mut First,
) -> Result<(), AllocError>
    ensures { OnOk result
        (first.new.best
        ≡ noted first.old.best
        (faults.call_types [] (source.word (said text.now.tokens.now kind.now)).at
        (said text.now.tokens.now kind.now) (signature_said callee.now).args
        (signature_said callee.now).results)) }
{
    let args = types_in(
        text.alloc,
        text.tokens,
        inside(text.tokens, kind, Form::Types),
    )?;
    let results = result_types(text.alloc, text.tokens, kind)?;
    note_written(&args, &callee.args, first);
    note_written(&results, &callee.results, first);
    let uneven = args.len() != callee.args.len() || results.len() != callee.results.len();
    first.note_if(uneven, word(text.tokens, kind).at, ScopeKind::Arity);
    Ok(())
}

/// Notes a callee that isn't there, or the types of a call that aren't those of its callee.
fn note_callee(text: &Text, kind: &[Branch], first: &mut First) -> Result<(), AllocError>
    ensures { OnOk result
        (first.new.best
        ≡ noted first.old.best
        (faults.callee_breaks (funcs_in text.now) [] (said text.now.tokens.now kind.now))) }
{
    let callee = defined_at(first_spot(text.tokens, kind, Terminal::Symbol));
    match text.callee(callee.name) {
        Some(signature) => note_call_types(text, kind, signature, first)?,
        None => first.note_if(true, callee.at, ScopeKind::Unknown),
    }
    Ok(())
}

/// Notes what a call breaks.
#[tactic(auto, using(crate::proofs::Notes::noted_three))]
fn note_call(
    text: &Text,
    scope: &Scope,
    kind: &[Branch],
    first: &mut First,
) -> Result<(), AllocError>
    ensures { OnOk result
        (first.new.best
        ≡ noted first.old.best
        (faults.call_breaks (funcs_in text.now) (scope_said scope.now)
        (said text.now.tokens.now kind.now))) }
{
    let uses = uses_in(
        text.alloc,
        text.tokens,
        inside(text.tokens, kind, Form::Uses),
    )?;
    let types = types_in(
        text.alloc,
        text.tokens,
        inside(text.tokens, kind, Form::Types),
    )?;
    let types = tys(text.alloc, &types)?;
    note_listed(scope, word(text.tokens, kind).at, &uses, &types, first);
    note_over_uses(ARG_LIMIT, &uses, first);
    note_callee(text, kind, first)?;
    Ok(())
}

/// Notes what a cast breaks.
#[tactic(auto, using(crate::proofs::Notes::noted_two))]
fn note_cast_there(
    text: &Text,
    scope: &Scope,
    kind: &[Branch],
    first: &mut First,
) -> Result<(), AllocError>
    ensures { OnOk result
        (first.new.best
        ≡ noted first.old.best
        (faults.same_written (scope_said scope.now)
        (source.uses_in (said text.now.tokens.now kind.now))
        (source.types_in (said text.now.tokens.now kind.now))
        ++ faults.cast_breaks (said text.now.tokens.now kind.now)
        (source.types_in (said text.now.tokens.now kind.now)))) }
{
    let types = types_in(text.alloc, text.tokens, kind)?;
    note_same_there(text.tokens, scope, kind, first);
    note_cast(text.tokens, kind, &types, first);
    Ok(())
}

/// Notes what an operation without regions breaks besides its uses and its results.
#[tactic(auto, using(crate::proofs::Notes::noted_two, crate::proofs::Simples::plain_breaks))]
pub fn note_simple(
    text: &Text,
    scope: &Scope,
    kind: &[Branch],
    first: &mut First,
) -> Result<(), AllocError>
    ensures { OnOk result
        (first.new.best
        ≡ noted first.old.best
        (faults.simple_breaks (funcs_in text.now) (scope_said scope.now)
        (source.head (said text.now.tokens.now kind.now)) (said text.now.tokens.now kind.now))) }
{
    match head(text.tokens, kind) {
        Terminal::Constant => note_literal(text.tokens, kind, first),
        Terminal::Cast => return note_cast_there(text, scope, kind, first),
        Terminal::FlaggedCast => return note_cast_there(text, scope, kind, first),
        Terminal::Select => {
            let uses = uses_in(text.alloc, text.tokens, kind)?;
            let types = types_in(text.alloc, text.tokens, kind)?;
            note_select(scope, &uses, &types, first);
        }
        Terminal::Call => return note_call(text, scope, kind, first),
        _ => note_same_there(text.tokens, scope, kind, first),
    }
    Ok(())
}
