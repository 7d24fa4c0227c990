ghost use Rattle.std.specs.Prelude.{◌≡◌, [], slice_index_or, IfOk};
ghost use Rattle.mlir_ir.specs.Operations as plain;
ghost use Rattle.mlir_ir.specs.Resolved as resolved;
ghost use Rattle.mlir_ir.specs.Source as source;
ghost use Rattle.mlir_ir.specs.View.{view_kind};
ghost use Rattle.mlir_ir.specs.declared.terminal.Terminal.TheVariants as terminals;
ghost use Rattle.mlir_scope.specs.Built as built;
ghost use Rattle.mlir_scope.specs.Built.{names_said, values_in};
ghost use Rattle.mlir_scope.specs.Said.{said};

use crate::built_types::first_of;
use crate::literal_values::literal;
use crate::operation_words::{bin_named, cast_named, pred_named};
use crate::phrase::{first_spot, has, head, inside, word};
use crate::said::{Defined, ValueType, same_bytes, unsigned};
use crate::scope_names::ScopeNames;
use crate::unbuilt::Unbuilt;
use crate::use_labels::{listed_labels, nth, own_labels};
use arith_word::{BinOp, Label};
use mlir_ir::{Branch, Flags, Form, Kind, Terminal, Token};
use std::alloc::Global;

/// The tokens of a text, and the names of its functions.
#[derive(Clone, Copy)]
pub(crate) struct Origin<'a> {
    pub(crate) tokens: &'a [Token],
    pub(crate) funcs: &'a [Defined<'a>],
}

/// The overflow flags of an operation.
fn flags_of(tokens: &[Token], kind: &[Branch]) -> Flags
    ensures { result ≡ resolved.flags_of (said tokens.now kind.now) }
{
    let flags = inside(tokens, kind, Form::Flags);
    Flags {
        nsw: has(tokens, flags, Terminal::Nsw),
        nuw: has(tokens, flags, Terminal::Nuw),
    }
}

/// The place of the first function with that name; how many there are where none has it.
fn place_named(funcs: &[Defined], name: &[u8]) -> usize
    ensures { result ≡ resolved.place_named name.now (names_said funcs.now) }
{
    let mut at = 0;
    'each: for func in funcs {
        if same_bytes(func.name, name) {
            return at;
        }
        at += 1;
    }
    at
}

/// An operation on the first two of some values.
fn binary_of(op: BinOp, flags: Flags, own: &[Label]) -> Kind
    ensures { view_kind result
        ≡ plain.Simple
        (plain.Bin op flags (slice_index_or own.now 0 (record { 0 = 0 }))
        (slice_index_or own.now 1 (record { 0 = 0 }))) }
{
    Kind::Bin(op, flags, nth(own, 0), nth(own, 1))
}

/// An operation on two values.
fn binary(
    alloc: Global,
    tokens: &[Token],
    scope: &ScopeNames,
    kind: &[Branch],
) -> Result<Kind, Unbuilt>
    ensures { IfOk result
        (λ made. view_kind made
        ≡ plain.Simple
        (resolved.simple_kind [] (values_in scope.now) terminals.Binary
        (said tokens.now kind.now))) }
{
    let own = own_labels(alloc, tokens, scope, kind)?;
    let op = bin_named(word(tokens, kind).text);
    Ok(binary_of(op, flags_of(tokens, kind), &own))
}

/// A change of width.
fn cast(
    alloc: Global,
    tokens: &[Token],
    scope: &ScopeNames,
    kind: &[Branch],
) -> Result<Kind, Unbuilt>
    ensures { IfOk result
        (λ made. view_kind made
        ≡ plain.Simple
        (resolved.simple_kind [] (values_in scope.now) terminals.Cast (said tokens.now kind.now))) }
{
    let own = own_labels(alloc, tokens, scope, kind)?;
    let op = cast_named(word(tokens, kind).text);
    Ok(Kind::Cast(op, flags_of(tokens, kind), nth(&own, 0)))
}

/// A comparison.
fn compare(
    alloc: Global,
    tokens: &[Token],
    scope: &ScopeNames,
    kind: &[Branch],
) -> Result<Kind, Unbuilt>
    ensures { IfOk result
        (λ made. view_kind made
        ≡ plain.Simple
        (resolved.simple_kind [] (values_in scope.now) terminals.Compare
        (said tokens.now kind.now))) }
{
    let own = own_labels(alloc, tokens, scope, kind)?;
    let pred = pred_named(first_spot(tokens, kind, Terminal::Predicate).text);
    Ok(Kind::Cmp(pred, nth(&own, 0), nth(&own, 1)))
}

/// A choice between two values.
fn select(
    alloc: Global,
    tokens: &[Token],
    scope: &ScopeNames,
    kind: &[Branch],
) -> Result<Kind, Unbuilt>
    ensures { IfOk result
        (λ made. view_kind made
        ≡ plain.Simple
        (resolved.simple_kind [] (values_in scope.now) terminals.Select
        (said tokens.now kind.now))) }
{
    let own = own_labels(alloc, tokens, scope, kind)?;
    Ok(Kind::Select(nth(&own, 0), nth(&own, 1), nth(&own, 2)))
}

/// A call.
fn call(alloc: Global, origin: Origin, scope: &ScopeNames, kind: &[Branch]) -> Result<Kind, Unbuilt>
    ensures { IfOk result
        (λ made. view_kind made
        ≡ plain.Simple
        (resolved.simple_kind (names_said origin.entry.funcs.now)
        (values_in scope.now) terminals.Call (said origin.entry.tokens.now kind.now))) }
{
    let tokens = origin.tokens;
    let name = unsigned(first_spot(tokens, kind, Terminal::Symbol).text);
    let at = place_named(origin.funcs, name);
    if at > usize::from(u16::MAX) {
        return Err(Unbuilt::NoRoom);
    }
    Ok(Kind::Call(at as u16, listed_labels(alloc, tokens, scope, kind)?))
}

/// An operation without regions, whose results have these types.
#[tactic(auto, using(crate::proofs::SimpleKinds::other_kind, crate::proofs::FirstTypes::first_written))]
pub(crate) fn simple_kind(
    alloc: Global,
    origin: Origin,
    scope: &ScopeNames,
    kind: &[Branch],
    types: &[ValueType],
) -> Result<Kind, Unbuilt>
    requires { built.AreTypesOf types.now (said origin.tokens.now kind.now) }
    ensures { IfOk result
        (λ made. view_kind made
        ≡ plain.Simple
        (resolved.simple_kind (names_said origin.entry.funcs.now) (values_in scope.now)
        (source.head (said origin.entry.tokens.now kind.now))
        (said origin.entry.tokens.now kind.now))) }
{
    let tokens = origin.tokens;
    match head(tokens, kind) {
        Terminal::Constant => Ok(Kind::Const(literal(tokens, kind, first_of(types))?)),
        Terminal::Binary => binary(alloc, tokens, scope, kind),
        Terminal::FlaggedBinary => binary(alloc, tokens, scope, kind),
        Terminal::Cast => cast(alloc, tokens, scope, kind),
        Terminal::FlaggedCast => cast(alloc, tokens, scope, kind),
        Terminal::Compare => compare(alloc, tokens, scope, kind),
        Terminal::Select => select(alloc, tokens, scope, kind),
        _ => call(alloc, origin, scope, kind),
    }
}
