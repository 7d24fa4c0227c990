ghost use Rattle.std.specs.Prelude.{◌≡◌, ◌+◌, ◌-◌, ◌<◌, ◌≤◌, ◌^◌, length, IfOk, IsTrue};
ghost use Rattle.std.specs.Result.{result_err};
ghost use Rattle.mlir_ir.specs.Check as spec;
ghost use Rattle.mlir_ir.specs.Labels.{for_labels, while_labels};
ghost use Rattle.mlir_ir.specs.Limits.{region_limit};
ghost use Rattle.mlir_ir.specs.Rules.{is_kind_sized, arg_types};
ghost use Rattle.mlir_ir.specs.Scope.{scope_values};
ghost use Rattle.mlir_ir.specs.Within.{for_labels_within, kind_labels_within, op_labels_within, ops_labels_within, region_labels_within, while_labels_within};

use crate::args::check_args;
use crate::fault::keep;
use crate::keeps::{condition_rules, op_rules, turn_rules, yield_rules};
use crate::rules::{Nest, Position};
use crate::scope::Scope;
use crate::shape::Shape;
use crate::types::{Arg, ForParts, IrType, Kind, Op, Region, WhileParts};
use arith_word::Label;
use std::slice;

/// The position past the operations, or their first break.
#[cycle(walk)]
#[tactic(auto, using(crate::proofs::ListedBreaks::next_op, crate::proofs::ListedBreaks::past_ops_more, crate::proofs::ListedBreaks::ops_room))]
pub(crate) fn check_ops<'x>(
    scope: &'x Scope<'x>,
    nest: Nest,
    at: Position,
    ops: &'x [Op],
) -> Result<Position, Shape>
    requires { at.next + ops_labels_within (region_limit - nest.regions) ops.now < 2 ^ 32 }
    ensures found { spec.first (spec.ops_breaks (scope_values scope.now) nest at
        ops.now) ≡ result_err result }
    ensures moved { IfOk result (λ behind. behind ≡ spec.past_ops ops.now at) }
{
    let mut behind = at;
    for (k, op) in ops.iter().enumerate() {
        let here = Scope::Ops(&*scope, at.next, &ops[..k]);
        behind = check_op(&here, nest, behind, op)?;
    }
    Ok(behind)
}

#[cycle(walk)]
fn check_op<'x>(
    scope: &'x Scope<'x>,
    nest: Nest,
    at: Position,
    op: &'x Op,
) -> Result<Position, Shape>
    requires { at.next + op_labels_within (region_limit - nest.regions) op.now < 2 ^ 32 }
    ensures found { spec.first (spec.op_breaks (scope_values scope.now) nest at
        op.now) ≡ result_err result }
    ensures moved { IfOk result (λ behind. behind ≡ spec.past_op op.now at) }
{
    keep(at.last, op_rules(scope, nest, at, op))?;
    let results = op.results.as_slice();
    let inside = check_kind(scope, nest, at.past(0, 1), results, &op.kind)?;
    Ok(inside.past(results.len() as u32, 0))
}

/// The position past what stands inside an operation with these results, or its first break.
#[cycle(walk)]
#[tactic(auto, using(crate::proofs::ListedBreaks::first_append, crate::proofs::ListedBreaks::past_past, crate::proofs::ListedBreaks::past_none), unfolding(crate::specs::Check::kind_breaks, crate::specs::Check::else_breaks))]
fn check_kind<'x>(
    scope: &'x Scope<'x>,
    nest: Nest,
    at: Position,
    results: &[IrType],
    kind: &'x Kind,
) -> Result<Position, Shape>
    requires room { at.next + kind_labels_within (region_limit - nest.regions) kind.now < 2 ^ 32 }
    requires opens { IsTrue (is_kind_sized nest.regions nest.loops kind.now) }
    ensures found { spec.first (spec.kind_breaks (scope_values scope.now) nest at
        results.now kind.now) ≡ result_err result }
    ensures moved { IfOk result (λ behind. behind ≡ spec.past_kind kind.now at) }
{
    match kind {
        Kind::If(_, first, None) => Ok(check_arm(scope, nest.opened(), at, results, first)?),
        Kind::If(_, first, Some(other)) => {
            let behind = check_arm(scope, nest.opened(), at, results, first)?;
            Ok(check_arm(scope, nest.opened(), behind, results, other)?)
        }
        Kind::For(parts) => Ok(check_for(scope, nest.looped(), at.past(1, 0), results, parts)?),
        Kind::While(parts) => Ok(check_while(scope, nest.looped(), at.past(1, 0), results, parts)?),
        _ => Ok(at),
    }
}

/// A region whose yield gives values of these types.
#[cycle(walk)]
#[tactic(auto, using(crate::proofs::RegionItems::arm_breaks_ops, crate::proofs::RegionItems::region_labels_items, crate::proofs::RegionItems::region_ops_items, crate::proofs::ListedBreaks::first_append))]
fn check_arm<'x>(
    scope: &'x Scope<'x>,
    nest: Nest,
    at: Position,
    wanted: &[IrType],
    region: &'x Region,
) -> Result<Position, Shape>
    requires { at.next + region_labels_within (region_limit - nest.regions) region.now < 2 ^ 32 }
    ensures found { spec.first (spec.arm_breaks (scope_values scope.now) nest at
        wanted.now region.now) ≡ result_err result }
    ensures moved { IfOk result (λ behind. behind ≡ spec.past_region region.now at) }
{
    let ops = region.ops.as_slice();
    let behind = check_ops(scope, nest, at, ops)?;
    let inside = Scope::Ops(&*scope, at.next, ops);
    keep(
        behind.last,
        yield_rules(&inside, wanted, region.ends.as_slice()),
    )?;
    Ok(behind)
}

/// A loop behind its counter.
#[cycle(walk)]
#[tactic(auto, using(crate::proofs::RegionItems::for_breaks_parts, crate::proofs::ListedBreaks::first_append))]
fn check_for<'x>(
    scope: &'x Scope<'x>,
    nest: Nest,
    at: Position,
    results: &[IrType],
    parts: &'x ForParts,
) -> Result<Position, Shape>
    requires { at.next + for_labels_within (region_limit - nest.regions) parts.now ≤ 2 ^ 32 }
    ensures found { spec.first (spec.for_breaks (scope_values scope.now) nest at
        results.now parts.now) ≡ result_err result }
    ensures moved { IfOk result (λ behind. behind
        ≡ spec.past (for_labels parts.now - 1) (spec.for_ops parts.now) at) }
{
    let iv = slice::from_ref(&parts.iv);
    let behind_iv = check_args(scope, false, &[], at, iv)?;
    let with_iv = Scope::Args(&*scope, at.next, iv);
    let args = parts.args.as_slice();
    let in_body = check_args(&with_iv, false, &[], behind_iv, args)?;
    let with_args = Scope::Args(&with_iv, behind_iv.next, args);
    Ok(check_arm(&with_args, nest, in_body, results, &parts.body)?)
}

/// A loop behind its counter.
#[cycle(walk)]
#[tactic(auto, using(crate::proofs::RegionItems::while_breaks_parts, crate::proofs::ListedBreaks::first_append))]
fn check_while<'x>(
    scope: &'x Scope<'x>,
    nest: Nest,
    at: Position,
    results: &[IrType],
    parts: &'x WhileParts,
) -> Result<Position, Shape>
    requires { at.next + while_labels_within (region_limit - nest.regions) parts.now ≤ 2 ^ 32 }
    ensures found { spec.first (spec.while_breaks (scope_values scope.now) nest at
        results.now parts.now) ≡ result_err result }
    ensures moved { IfOk result (λ behind. behind
        ≡ spec.past (while_labels parts.now - 1) (spec.while_ops parts.now) at) }
{
    let args = parts.args.as_slice();
    let in_before = check_args(scope, false, &[], at, args)?;
    let with_args = Scope::Args(&*scope, at.next, args);
    let behind = check_before(
        &with_args,
        nest,
        in_before,
        results,
        parts.cond,
        &parts.before,
    )?;
    let after_args = parts.after_args.as_slice();
    let in_after = check_args(scope, false, results, behind, after_args)?;
    let with_after = Scope::Args(&*scope, behind.next, after_args);
    Ok(check_turn(&with_after, nest, in_after, args, &parts.after)?)
}

/// The region before a turn, which ends with its condition.
#[cycle(walk)]
#[tactic(auto, using(crate::proofs::RegionItems::before_breaks_ops, crate::proofs::RegionItems::region_labels_items, crate::proofs::RegionItems::region_ops_items, crate::proofs::ListedBreaks::first_append))]
fn check_before<'x>(
    scope: &'x Scope<'x>,
    nest: Nest,
    at: Position,
    results: &[IrType],
    cond: Label,
    region: &'x Region,
) -> Result<Position, Shape>
    requires { at.next + region_labels_within (region_limit - nest.regions) region.now < 2 ^ 32 }
    ensures found { spec.first (spec.before_breaks (scope_values scope.now) nest at
        results.now cond region.now) ≡ result_err result }
    ensures moved { IfOk result (λ behind. behind ≡ spec.past_region region.now at) }
{
    let ops = region.ops.as_slice();
    let behind = check_ops(scope, nest, at, ops)?;
    let inside = Scope::Ops(&*scope, at.next, ops);
    keep(
        behind.last,
        condition_rules(&inside, results, cond, region.ends.as_slice()),
    )?;
    Ok(behind)
}

/// The region of a turn.
#[cycle(walk)]
#[tactic(auto, using(crate::proofs::RegionItems::turn_breaks_ops, crate::proofs::RegionItems::region_labels_items, crate::proofs::RegionItems::region_ops_items, crate::proofs::ListedBreaks::first_append))]
fn check_turn<'x>(
    scope: &'x Scope<'x>,
    nest: Nest,
    at: Position,
    wanted: &[Arg],
    region: &'x Region,
) -> Result<Position, Shape>
    requires { at.next + region_labels_within (region_limit - nest.regions) region.now < 2 ^ 32 }
    ensures found { spec.first (spec.turn_breaks (scope_values scope.now) nest at
        (arg_types wanted.now) region.now) ≡ result_err result }
    ensures moved { IfOk result (λ behind. behind ≡ spec.past_region region.now at) }
{
    let ops = region.ops.as_slice();
    let behind = check_ops(scope, nest, at, ops)?;
    let inside = Scope::Ops(&*scope, at.next, ops);
    keep(
        behind.last,
        turn_rules(&inside, wanted, region.ends.as_slice()),
    )?;
    Ok(behind)
}
