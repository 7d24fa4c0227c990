ghost use Rattle.std.specs.Prelude.{◌≡◌, ◌+◌, ◌++◌, ◌∷◌, [], map, length, IfOk, OnOk};
ghost use Rattle.std.specs.Option.{is_some};
ghost use Rattle.mlir_ir.specs.Operations as plain;
ghost use Rattle.mlir_ir.specs.Resolved as resolved;
ghost use Rattle.mlir_ir.specs.Source as source;
ghost use Rattle.mlir_ir.specs.Values as values;
ghost use Rattle.mlir_ir.specs.View.{view_kind, view_ops};
ghost use Rattle.mlir_ir.specs.declared.terminal.Terminal.TheVariants as terminals;
ghost use Rattle.mlir_scope.specs.Built as built;
ghost use Rattle.mlir_scope.specs.Built.{scope_at};
ghost use Rattle.mlir_scope.specs.Reading.{packed_said, type_said};
ghost use Rattle.mlir_scope.specs.Said.{said};

use crate::built_loops::{ForHeader, WhileHeader};
use crate::built_types::{ir_types, packs_of};
use crate::phrase::{inside, inside_before};
use crate::place::Place;
use crate::said::{Packed, ValueType};
use crate::simple_kinds::Origin;
use crate::unbuilt::Unbuilt;
use crate::use_labels::{first_use, listed_labels};
use arith_word::{Label, List};
use mlir_ir::{Arg, Branch, ForParts, Form, Kind, Op, Region, Terminal, WhileParts};
use sqlite_items::Items;
use std::alloc::Global;

/// A region of these operations, which gives on these values.
#[tactic(auto, using(mlir_ir::proofs::PartViews::region_rows, mlir_ir::proofs::PartViews::region_ends))]
fn region_of(ops: Vec<Op>, ends: List<Label>) -> Region
    ensures { built.HasParts result (view_ops ops.items) ends }
{
    Region {
        ops: Items::from_vec(ops),
        ends,
    }
}

/// The region of operations that were built, whose terminator stands in those parts. The values
/// behind the first `outer` go out of scope.
pub(crate) fn close_region(
    alloc: Global,
    origin: Origin,
    place: &mut Place,
    parts: &[Branch],
    outer: usize,
    ops: Vec<Op>,
) -> Result<Region, Unbuilt>
    ensures parts { IfOk result
        (λ made. built.HasParts made (view_ops ops.items)
        (resolved.labels (scope_at place.old)
        (source.ending terminals.Yield (said origin.entry.tokens.now parts.now)).uses)) }
    ensures left { OnOk result (built.IsLeft place.old place.new outer) }
{
    let ends = inside(origin.tokens, parts, Form::Ends);
    let given = listed_labels(alloc, origin.tokens, &place.scope, ends)?;
    place.leave(outer);
    Ok(region_of(ops, given))
}

/// The region before `do` of an `scf.while`, and the label of its condition.
#[derive(Drop)]
pub(crate) struct Tested {
    pub(crate) region: Region,
    pub(crate) cond: Label,
}

/// The region before `do` of operations that were built. The values behind the first `outer` go out
/// of scope.
pub(crate) fn close_tested(
    alloc: Global,
    origin: Origin,
    place: &mut Place,
    kind: &[Branch],
    outer: usize,
    ops: Vec<Op>,
) -> Result<Tested, Unbuilt>
    ensures parts { IfOk result
        (λ made. built.HasParts made.region (view_ops ops.items)
        (resolved.labels (scope_at place.old)
        (source.ending terminals.Condition
        (source.before_parts (said origin.entry.tokens.now kind.now))).uses)) }
    ensures cond { IfOk result
        (λ made. made.cond
        ≡ resolved.nth_use (scope_at place.old) 0 (said origin.entry.tokens.now kind.now)) }
    ensures left { OnOk result (built.IsLeft place.old place.new outer) }
{
    let ends = inside_before(origin.tokens, kind, Terminal::Do, Form::Ends);
    let passed = listed_labels(alloc, origin.tokens, &place.scope, ends)?;
    let cond = first_use(alloc, origin.tokens, &place.scope, kind)?;
    place.leave(outer);
    Ok(Tested {
        region: region_of(ops, passed),
        cond,
    })
}

/// The operation of a kind that was built. Its results are put in scope.
pub(crate) fn close_op<'a>(
    alloc: Global,
    place: &mut Place<'a>,
    packs: Vec<Packed<'a>>,
    types: Vec<ValueType>,
    kind: Kind,
) -> Result<Op, Unbuilt>
    ensures built { IfOk result
        (λ op. view_ops (op ∷ [])
        ≡ plain.next (resolved.packs_of (map packed_said packs.entry.items))
        (map type_said types.items) (view_kind kind) plain.nil) }
    ensures scope { OnOk result
        (scope_at place.new ≡ scope_at place.old
        ++ values.result_values place.old.next
        (resolved.packs_of (map packed_said packs.entry.items)) (map type_said types.items)) }
    ensures next { OnOk result (place.new.next ≡ place.old.next + length types.items) }
{
    let made = packs_of(alloc, &packs)?;
    let results = ir_types(alloc, &types)?;
    place.push_results(&packs, &types)?;
    Ok(Op {
        packs: made,
        results,
        kind,
    })
}

/// An `scf.if`.
#[tactic(auto, using(crate::proofs::BuiltRegions::if_parts))]
pub(crate) fn made_if(c: Label, first: Region, other: Option<Region>) -> Kind
    ensures { view_kind result
        ≡ plain.If c (built.rows_of first) (built.ends_of first) (is_some other)
        (built.other_rows other) (built.other_ends other) }
{
    Kind::If(c, first, other)
}

/// An `scf.for`.
#[tactic(auto, using(mlir_ir::proofs::PartViews::for_parts))]
pub(crate) fn made_for(header: ForHeader, body: Region) -> Kind
    ensures { view_kind result
        ≡ plain.For header.lower header.upper header.step header.iv header.args header.inits
        (built.rows_of body) (built.ends_of body) }
{
    Kind::For(ForParts {
        lower: header.lower,
        upper: header.upper,
        step: header.step,
        iv: header.iv,
        args: header.args,
        inits: header.inits,
        body,
    })
}

/// An `scf.while`.
#[tactic(auto, using(mlir_ir::proofs::PartViews::while_parts))]
pub(crate) fn made_while(
    header: WhileHeader,
    before: Tested,
    after_args: List<Arg>,
    after: Region,
) -> Kind
    ensures { view_kind result
        ≡ plain.While header.args header.inits (built.rows_of before.region)
        (built.ends_of before.region) before.cond after_args (built.rows_of after)
        (built.ends_of after) }
{
    Kind::While(WhileParts {
        args: header.args,
        inits: header.inits,
        before: before.region,
        cond: before.cond,
        after_args,
        after,
    })
}
