ghost use Rattle.std.specs.Prelude.{◌≡◌, ◌++◌, map, OnOk, IfOk};
ghost use Rattle.mlir_ir.specs.ScopeFaults as faults;
ghost use Rattle.mlir_ir.specs.Source as source;
ghost use Rattle.mlir_scope.specs.Noted.{noted};
ghost use Rattle.mlir_scope.specs.Reading.{type_said, written_said, defined_said};
ghost use Rattle.mlir_scope.specs.Said.{said};
ghost use Rattle.mlir_scope.specs.Scopes.{scope_said};
ghost use Rattle.mlir_scope.specs.Walks.{Notes, in_scope};

use crate::endings::{condition_ending, note_ending, note_listed};
use crate::first::First;
use crate::kinds::inits_of;
use crate::names::note_repeated;
use crate::phrase::{behind, inside, word};
use crate::said::{Defined, ValueType, uses_in};
use crate::scope::Scope;
use crate::signatures::{Params, params_in};
use crate::simple::note_truth;
use crate::text::Text;
use crate::uses::{note_uses, note_written};
use crate::walked::Walked;
use mlir_ir::limits::{ARG_LIMIT, CARRIED_LIMIT, LOOP_LIMIT};
use mlir_ir::{Branch, Form, ScopeKind, Terminal};
use std::alloc::{AllocError, Global};

/// Notes the first name that is one too many.
#[tactic(auto, using(crate::proofs::Overs::over_found, crate::proofs::Overs::over_past))]
pub fn note_over_names(limit: usize, names: &[Defined], first: &mut First)
    ensures { first.new.best
        ≡ noted first.old.best
        (faults.over limit (map (λ (d : source.Defined). d.at) (map defined_said names.now))) }
{
    if let Some(d) = names.get(limit) {
        first.note_if(true, d.at, ScopeKind::Limit);
    }
}

/// Names, with more names behind them.
fn all_names<'a>(
    alloc: Global,
    before: &[Defined<'a>],
    names: &[Defined<'a>],
) -> Result<Vec<Defined<'a>>, AllocError>
    ensures { IfOk result (λ v. v.items ≡ before.now ++ names.now) }
{
    let mut all = Vec::new(alloc);
    all.extend_from_slice(before)?;
    all.extend_from_slice(names)?;
    Ok(all)
}

/// Notes what the loop-carried values break, which have these types, in so many open loops, behind
/// these names in the header.
pub fn note_carried<'a>(
    text: &Text<'a>,
    loops: u32,
    kind: &'a [Branch],
    before: &[Defined<'a>],
    types: &[ValueType],
    w: &mut Walked<'a>,
) -> Result<(), AllocError>
    ensures { OnOk result
        (Notes w.old w.new
        (faults.carried_breaks (in_scope w.old) loops (said text.now.tokens.now kind.now)
        (map defined_said before.now) (map type_said types.now))) }
{
    let at = word(text.tokens, kind).at;
    let inits = inits_of(text.alloc, text.tokens, kind)?;
    let names = all_names(text.alloc, before, &inits.names)?;
    note_listed(&w.scope, at, &inits.uses, types, &mut w.first);
    note_repeated(&mut w.scope, &names, &mut w.first)?;
    note_over_names(CARRIED_LIMIT, &inits.names, &mut w.first);
    w.first.note_if(loops >= LOOP_LIMIT, at, ScopeKind::Limit);
    Ok(())
}

/// The parameters behind `do`.
pub fn after_params<'a>(text: &Text<'a>, kind: &'a [Branch]) -> Result<Params<'a>, AllocError>
    ensures names { IfOk result
        (λ v. map defined_said v.names.items
        ≡ map (λ (p : source.Defined × source.Written). p.0)
        (source.after_params (said text.now.tokens.now kind.now))) }
    ensures types { IfOk result
        (λ v. map written_said v.types.items
        ≡ map (λ (p : source.Defined × source.Written). p.1)
        (source.after_params (said text.now.tokens.now kind.now))) }
{
    let parts = behind(text.tokens, kind, Terminal::Do);
    params_in(
        text.alloc,
        text.tokens,
        inside(text.tokens, parts, Form::Params),
    )
}

/// Notes what the parameters behind `do` break, which have the result types.
pub fn note_params<'a>(
    text: &Text<'a>,
    kind: &'a [Branch],
    wanted: &[ValueType],
    w: &mut Walked<'a>,
) -> Result<(), AllocError>
    ensures { OnOk result
        (Notes w.old w.new
        (faults.params_breaks (in_scope w.old) (source.word (said text.now.tokens.now kind.now)).at
        (map type_said wanted.now) (source.after_params (said text.now.tokens.now kind.now)))) }
{
    let at = word(text.tokens, kind).at;
    let params = after_params(text, kind)?;
    note_repeated(&mut w.scope, &params.names, &mut w.first)?;
    note_over_names(ARG_LIMIT, &params.names, &mut w.first);
    note_written(&params.types, wanted, &mut w.first);
    w.first
        .note_if(params.types.len() != wanted.len(), at, ScopeKind::Arity);
    Ok(())
}

/// Notes what the condition and the values that are passed on break.
#[tactic(auto, using(crate::proofs::Notes::noted_three))]
pub fn note_condition(
    text: &Text,
    scope: &Scope,
    kind: &[Branch],
    wanted: &[ValueType],
    first: &mut First,
) -> Result<(), AllocError>
    ensures { OnOk result
        (first.new.best
        ≡ noted first.old.best
        (faults.condition_breaks (scope_said scope.now) (said text.now.tokens.now kind.now)
        (map type_said wanted.now))) }
{
    let uses = uses_in(text.alloc, text.tokens, kind)?;
    let e = condition_ending(text.alloc, text.tokens, kind)?;
    note_uses(scope, e.word, &uses, first);
    note_truth(scope, &uses, first);
    note_ending(text.alloc, scope, wanted, &e, first)
}
