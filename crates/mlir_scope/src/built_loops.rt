ghost use Rattle.std.specs.Prelude.{◌≡◌, ◌+◌, ◌∷◌, ◌++◌, map, length, OnOk, IfOk};
ghost use Rattle.std.specs.List.{zip};
ghost use Rattle.mlir_ir.specs.Resolved as resolved;
ghost use Rattle.mlir_ir.specs.Source as source;
ghost use Rattle.mlir_ir.specs.Values as values;
ghost use Rattle.mlir_scope.specs.Built as built;
ghost use Rattle.mlir_scope.specs.Built.{scope_at};
ghost use Rattle.mlir_scope.specs.Reading.{type_said};
ghost use Rattle.mlir_scope.specs.Said.{said};

use crate::built_types::{arg_of, args_of, first_of};
use crate::kinds::{inits_of, own_types};
use crate::phrase::{behind, first_spot, inside};
use crate::place::Place;
use crate::said::{ValueType, defined_at, names_in};
use crate::unbuilt::Unbuilt;
use crate::use_labels::{labels_of, nth, own_labels};
use arith_word::{Label, List};
use mlir_ir::{Arg, Branch, Form, Terminal, Token};
use std::alloc::Global;

/// What stands before the region of an `scf.for`.
#[derive(Drop)]
pub(crate) struct ForHeader {
    pub(crate) lower: Label,
    pub(crate) upper: Label,
    pub(crate) step: Label,
    pub(crate) iv: Arg,
    pub(crate) args: List<Arg>,
    pub(crate) inits: List<Label>,
}

/// The type of an induction variable: the one that is written, or `index`.
#[tactic(auto, using(crate::proofs::FirstTypes::first_written))]
fn variable_type(alloc: Global, tokens: &[Token], kind: &[Branch]) -> Result<ValueType, Unbuilt>
    ensures { IfOk result
        (λ ty. type_said ty ≡ resolved.variable_type (source.types_in (said tokens.now kind.now))) }
{
    let types = own_types(alloc, tokens, kind)?;
    Ok(first_of(&types))
}

/// The header with bounds and a step that are the first of some values.
fn header_of(own: &[Label], iv: Arg, args: List<Arg>, inits: List<Label>) -> ForHeader
    ensures { result ≡ built.header_said own.now iv args inits }
{
    ForHeader {
        lower: nth(own, 0),
        upper: nth(own, 1),
        step: nth(own, 2),
        iv,
        args,
        inits,
    }
}

/// The header of an `scf.for` with these result types. Its variables are put in scope.
#[tactic(auto, using(crate::proofs::FirstTypes::carried_named))]
pub(crate) fn for_header<'a>(
    alloc: Global,
    tokens: &'a [Token],
    place: &mut Place<'a>,
    kind: &'a [Branch],
    types: &[ValueType],
) -> Result<ForHeader, Unbuilt>
    ensures built { IfOk result
        (λ header. header
        ≡ built.for_header (scope_at place.old) (said tokens.now kind.now)
        (map type_said types.now)) }
    ensures scope { IfOk result
        (λ header. scope_at place.new ≡ scope_at place.old
        ++ values.arg_values (place.old.next + 1) (header.iv ∷ header.args)) }
    ensures next { IfOk result
        (λ header. place.new.next ≡ place.old.next + 2 + length header.args) }
{
    let own = own_labels(alloc, tokens, &place.scope, kind)?;
    let carried = inits_of(alloc, tokens, kind)?;
    let inits = labels_of(alloc, &place.scope, &carried.uses)?;
    let iv = defined_at(first_spot(tokens, kind, Terminal::Value));
    let ty = variable_type(alloc, tokens, kind)?;
    place.skip(1)?;
    place.push_args(&[iv], &[ty])?;
    place.push_args(&carried.names, types)?;
    let iv = arg_of(alloc, iv.name, ty)?;
    let args = args_of(alloc, &carried.names, types)?;
    Ok(header_of(&own, iv, args, List::from_vec(inits)))
}

/// What stands before the first region of an `scf.while`.
#[derive(Drop)]
pub(crate) struct WhileHeader {
    pub(crate) args: List<Arg>,
    pub(crate) inits: List<Label>,
}

/// The header of an `scf.while`. Its variables are put in scope.
#[tactic(auto, using(crate::proofs::FirstTypes::carried_named))]
pub(crate) fn while_header<'a>(
    alloc: Global,
    tokens: &'a [Token],
    place: &mut Place<'a>,
    kind: &'a [Branch],
) -> Result<WhileHeader, Unbuilt>
    ensures args { IfOk result
        (λ header. header.args ≡ built.while_args (said tokens.now kind.now)) }
    ensures inits { IfOk result
        (λ header. header.inits
        ≡ resolved.labels (scope_at place.old)
        (resolved.inits_used (source.inits_of (said tokens.now kind.now)))) }
    ensures scope { OnOk result
        (scope_at place.new ≡ scope_at place.old
        ++ values.arg_values (place.old.next + 1) (built.while_args (said tokens.now kind.now))) }
    ensures next { OnOk result
        (place.new.next ≡ place.old.next + 1
        + length (built.while_args (said tokens.now kind.now))) }
{
    let carried = inits_of(alloc, tokens, kind)?;
    let inits = labels_of(alloc, &place.scope, &carried.uses)?;
    let types = own_types(alloc, tokens, inside(tokens, kind, Form::Types))?;
    place.skip(1)?;
    place.push_args(&carried.names, &types)?;
    Ok(WhileHeader {
        args: args_of(alloc, &carried.names, &types)?,
        inits: List::from_vec(inits),
    })
}

/// The parameters of the region behind `do`, which are put in scope.
pub(crate) fn after_header<'a>(
    alloc: Global,
    tokens: &'a [Token],
    place: &mut Place<'a>,
    kind: &'a [Branch],
) -> Result<List<Arg>, Unbuilt>
    ensures args { IfOk result
        (λ args. args ≡ resolved.args_of (source.after_params (said tokens.now kind.now))) }
    ensures scope { OnOk result
        (scope_at place.new ≡ scope_at place.old
        ++ values.arg_values place.old.next
        (resolved.args_of (source.after_params (said tokens.now kind.now)))) }
    ensures next { OnOk result
        (place.new.next ≡ place.old.next
        + length (resolved.args_of (source.after_params (said tokens.now kind.now)))) }
{
    let parts = behind(tokens, kind, Terminal::Do);
    push_params(alloc, tokens, place, inside(tokens, parts, Form::Params))
}

/// Parameters: names with their types, which are put in scope.
#[tactic(auto, using(crate::proofs::FirstTypes::params_named))]
pub(crate) fn push_params<'a>(
    alloc: Global,
    tokens: &'a [Token],
    place: &mut Place<'a>,
    params: &'a [Branch],
) -> Result<List<Arg>, Unbuilt>
    ensures args { IfOk result
        (λ args. args
        ≡ resolved.args_of
        (zip (source.names_in (said tokens.now params.now))
        (source.types_in (said tokens.now params.now)))) }
    ensures scope { OnOk result
        (scope_at place.new ≡ scope_at place.old
        ++ values.arg_values place.old.next
        (resolved.args_of
        (zip (source.names_in (said tokens.now params.now))
        (source.types_in (said tokens.now params.now))))) }
    ensures next { OnOk result
        (place.new.next ≡ place.old.next
        + length (resolved.args_of
        (zip (source.names_in (said tokens.now params.now))
        (source.types_in (said tokens.now params.now))))) }
{
    let names = names_in(alloc, tokens, params)?;
    let types = own_types(alloc, tokens, params)?;
    place.push_args(&names, &types)?;
    args_of(alloc, &names, &types)
}
