ghost use Rattle.std.specs.Prelude.{◌≡◌, [], ◌∷◌, OnOk, IfOk};
ghost use Rattle.mlir_ir.specs.Phrases as phrases;
ghost use Rattle.mlir_ir.specs.Resolved as resolved;
ghost use Rattle.mlir_ir.specs.Source as source;
ghost use Rattle.mlir_ir.specs.View.{view_kind, view_ops};
ghost use Rattle.mlir_ir.specs.declared.terminal.Terminal.TheVariants as terminals;
ghost use Rattle.mlir_scope.specs.Built as built;
ghost use Rattle.mlir_scope.specs.Said.{said};

use crate::blocks::{Operation, Ops, behind_word, next_op};
use crate::built_loops::{after_header, for_header, while_header};
use crate::built_regions::{
    Tested, close_op, close_region, close_tested, made_for, made_if, made_while,
};
use crate::kinds::op_types;
use crate::phrase::{behind, has, head, inside};
use crate::place::Place;
use crate::said::{ValueType, packs_in};
use crate::simple_kinds::{Origin, simple_kind};
use crate::unbuilt::Unbuilt;
use crate::use_labels::first_use;
use mlir_ir::{Branch, Form, Kind, Op, Region, Terminal};
use std::alloc::Global;

/// Operations beside one another, from a place on. Their values are in scope behind them.
#[cycle(build)]
pub(crate) fn build_ops<'x>(
    alloc: Global,
    origin: Origin<'x>,
    place: &mut Place<'x>,
    ops: Ops<'x>,
) -> Result<Vec<Op>, Unbuilt>
    ensures built { IfOk result
        (λ made. view_ops made.items ≡ built.ops_said origin.entry ops.entry place.old) }
    ensures behind { OnOk result
        (built.AreBehind place.old place.new (built.ops_said origin.entry ops.entry place.old)) }
{
    let mut made = Vec::new(alloc);
    let mut left = ops;
    'each: while let Some((o, rest)) = next_op(origin.tokens, left) {
        left = rest;
        made.push(build_op(alloc, origin, place, o)?)?;
    }
    Ok(made)
}

/// One operation, at a place.
#[cycle(build)]
pub(crate) fn build_op<'x>(
    alloc: Global,
    origin: Origin<'x>,
    place: &mut Place<'x>,
    o: Operation<'x>,
) -> Result<Op, Unbuilt>
    ensures built { IfOk result
        (λ op. view_ops (op ∷ []) ≡ built.op_said origin.entry o.entry place.old) }
    ensures behind { OnOk result
        (built.AreBehind place.old place.new (built.op_said origin.entry o.entry place.old)) }
{
    let packs = packs_in(alloc, origin.tokens, o.parts)?;
    let types = op_types(alloc, origin.tokens, o.kind)?;
    let kind = build_kind(alloc, origin, place, o.kind, &types)?;
    let op = close_op(alloc, place, packs, types, kind)?;
    Ok(op)
}

/// What an operation does whose results have these types. Behind it the same values are in scope.
#[cycle(build)]
#[tactic(auto, using(crate::proofs::BuiltOps::kind_simple, crate::proofs::BuiltOps::simple_past))]
fn build_kind<'x>(
    alloc: Global,
    origin: Origin<'x>,
    place: &mut Place<'x>,
    kind: &'x [Branch],
    types: &[ValueType],
) -> Result<Kind, Unbuilt>
    requires { built.AreTypesOf types.now (said origin.tokens.now kind.now) }
    ensures built { IfOk result
        (λ made. view_kind made ≡ built.kind_said origin.entry kind.now place.old) }
    ensures past { OnOk result
        (built.IsPast place.old place.new (built.kind_said origin.entry kind.now place.old)) }
{
    match head(origin.tokens, kind) {
        Terminal::If => Ok(build_if(alloc, origin, place, kind)?),
        Terminal::For => Ok(build_for(alloc, origin, place, kind, types)?),
        Terminal::While => Ok(build_while(alloc, origin, place, kind)?),
        _ => Ok(simple_kind(alloc, origin, &place.scope, kind, types)?),
    }
}

/// A region, whose terminator stands in those parts. Behind it the same values are in scope.
#[cycle(build)]
fn build_region<'x>(
    alloc: Global,
    origin: Origin<'x>,
    place: &mut Place<'x>,
    ops: Ops<'x>,
    parts: &'x [Branch],
) -> Result<Region, Unbuilt>
    ensures built { IfOk result
        (λ made. built.HasParts made (built.ops_said origin.entry ops.entry place.old)
        (built.ends_behind (built.ops_said origin.entry ops.entry place.old)
        (said origin.entry.tokens.now parts.now) place.old)) }
    ensures past { OnOk result
        (built.ArePast place.old place.new (built.ops_said origin.entry ops.entry place.old)) }
{
    let outer = place.scope.len();
    let made = build_ops(alloc, origin, place, ops)?;
    let region = close_region(alloc, origin, place, parts, outer, made)?;
    Ok(region)
}

/// The region before `do` of an `scf.while`, and its condition. Behind it the same values are in
/// scope.
#[cycle(build)]
fn build_tested<'x>(
    alloc: Global,
    origin: Origin<'x>,
    place: &mut Place<'x>,
    kind: &'x [Branch],
) -> Result<Tested, Unbuilt>
    ensures built { IfOk result
        (λ made. built.HasParts made.region (built.first_said origin.entry kind.now place.old)
        (built.passed_behind origin.entry kind.now place.old)) }
    ensures cond { IfOk result
        (λ made. made.cond
        ≡ resolved.nth_use (built.behind_before origin.entry kind.now place.old) 0
        (said origin.entry.tokens.now kind.now)) }
    ensures past { OnOk result
        (built.ArePast place.old place.new (built.first_said origin.entry kind.now place.old)) }
{
    let outer = place.scope.len();
    let ops = Ops {
        parts: kind,
        direct: false,
    };
    let made = build_ops(alloc, origin, place, ops)?;
    let tested = close_tested(alloc, origin, place, kind, outer, made)?;
    Ok(tested)
}

/// The second region of an operation, whose terminator stands in those parts.
#[cycle(build)]
fn build_second<'x>(
    alloc: Global,
    origin: Origin<'x>,
    place: &mut Place<'x>,
    kind: &'x [Branch],
    parts: &'x [Branch],
) -> Result<Region, Unbuilt>
    ensures built { IfOk result
        (λ made. built.HasParts made (built.second_said origin.entry kind.now place.old)
        (built.second_ends origin.entry kind.now
        (said origin.entry.tokens.now parts.now) place.old)) }
    ensures past { OnOk result
        (built.ArePast place.old place.new (built.second_said origin.entry kind.now place.old)) }
{
    let rest = behind_word(origin.tokens, kind);
    let ops = Ops {
        parts: rest,
        direct: false,
    };
    let region = build_region(alloc, origin, place, ops, parts)?;
    Ok(region)
}

/// The region of `else`, where an `scf.if` has one.
#[cycle(build)]
fn build_else<'x>(
    alloc: Global,
    origin: Origin<'x>,
    place: &mut Place<'x>,
    kind: &'x [Branch],
) -> Result<Option<Region>, Unbuilt>
    ensures built { IfOk result
        (λ other. built.HasElse other
        (phrases.has terminals.Else (said origin.entry.tokens.now kind.now))
        (built.second_said origin.entry kind.now place.old)
        (built.second_ends origin.entry kind.now
        (source.else_parts (said origin.entry.tokens.now kind.now)) place.old)) }
    ensures past { OnOk result
        (built.ArePast place.old place.new (built.second_said origin.entry kind.now place.old)) }
{
    let tokens = origin.tokens;
    if has(tokens, kind, Terminal::Else) {
        let parts = inside(tokens, behind(tokens, kind, Terminal::Else), Form::Region);
        let other = build_second(alloc, origin, place, kind, parts)?;
        Ok(Some(other))
    } else if has(tokens, kind, Terminal::Do) {
        Err(Unbuilt::NoRoom)
    } else {
        Ok(None)
    }
}

/// An `scf.if`.
#[cycle(build)]
fn build_if<'x>(
    alloc: Global,
    origin: Origin<'x>,
    place: &mut Place<'x>,
    kind: &'x [Branch],
) -> Result<Kind, Unbuilt>
    requires { source.head (said origin.tokens.now kind.now) ≡ terminals.If }
    ensures built { IfOk result
        (λ made. view_kind made ≡ built.kind_said origin.entry kind.now place.old) }
    ensures past { OnOk result
        (built.IsPast place.old place.new (built.kind_said origin.entry kind.now place.old)) }
{
    let tokens = origin.tokens;
    let cond = first_use(alloc, tokens, &place.scope, kind)?;
    let ops = Ops {
        parts: kind,
        direct: false,
    };
    let parts = inside(tokens, kind, Form::Region);
    let first = build_region(alloc, origin, place, ops, parts)?;
    let other = build_else(alloc, origin, place, kind)?;
    Ok(made_if(cond, first, other))
}

/// An `scf.for` whose results have these types.
#[cycle(build)]
fn build_for<'x>(
    alloc: Global,
    origin: Origin<'x>,
    place: &mut Place<'x>,
    kind: &'x [Branch],
    types: &[ValueType],
) -> Result<Kind, Unbuilt>
    requires types { built.AreTypesOf types.now (said origin.tokens.now kind.now) }
    requires word { source.head (said origin.tokens.now kind.now) ≡ terminals.For }
    ensures built { IfOk result
        (λ made. view_kind made ≡ built.kind_said origin.entry kind.now place.old) }
    ensures past { OnOk result
        (built.IsPast place.old place.new (built.kind_said origin.entry kind.now place.old)) }
{
    let outer = place.scope.len();
    let header = for_header(alloc, origin.tokens, place, kind, types)?;
    let ops = Ops {
        parts: kind,
        direct: false,
    };
    let parts = inside(origin.tokens, kind, Form::Region);
    let body = build_region(alloc, origin, place, ops, parts)?;
    place.leave(outer);
    Ok(made_for(header, body))
}

/// An `scf.while`.
#[cycle(build)]
fn build_while<'x>(
    alloc: Global,
    origin: Origin<'x>,
    place: &mut Place<'x>,
    kind: &'x [Branch],
) -> Result<Kind, Unbuilt>
    requires { source.head (said origin.tokens.now kind.now) ≡ terminals.While }
    ensures built { IfOk result
        (λ made. view_kind made ≡ built.kind_said origin.entry kind.now place.old) }
    ensures past { OnOk result
        (built.IsPast place.old place.new (built.kind_said origin.entry kind.now place.old)) }
{
    let tokens = origin.tokens;
    let outer = place.scope.len();
    let header = while_header(alloc, tokens, place, kind)?;
    let tested = build_tested(alloc, origin, place, kind)?;
    place.leave(outer);
    let after_args = after_header(alloc, tokens, place, kind)?;
    let parts = behind(tokens, kind, Terminal::Do);
    let after = build_second(alloc, origin, place, kind, parts)?;
    place.leave(outer);
    Ok(made_while(header, tested, after_args, after))
}
