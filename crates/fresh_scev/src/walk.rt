ghost use Rattle.std.specs.Prelude.{◌≡◌, ◌+◌, ◌<◌, ◌^◌, ◌++◌, ◌∷◌, [], length, OnOk};
ghost use Rattle.mlir_ir.specs.Operations.{labels_of, inner_labels};
ghost use Rattle.mlir_ir.specs.View.{view_kind, view_ops, view_for, view_while};
ghost use Rattle.fresh_scev.specs.Facts as plain;
ghost use Rattle.fresh_scev.specs.Heads.{CanWalk, InsideFor, InsideWhile, WalksRegions, branches_of, first_of_for, first_of_while, for_inside_labels, for_of, loop_of_for, loop_of_while, rows_of, then_of, while_inside_labels, while_of};
ghost use Rattle.fresh_scev.specs.Table.{next_label};
ghost use Rattle.fresh_scev.specs.UsesBelow.{CarriesResults, DoesUseBelow, DoUseBelow};
ghost use Rattle.fresh_scev.specs.Walked.{Says};

use crate::entering::open_loop;
use crate::heads::{ForHead, WhileHead, for_head, while_head};
use crate::merges::define_merged;
use crate::rounds::{begin_for, begin_while, end_for, end_while, next_for, next_while, pass_on};
use crate::simple::define_results;
use crate::table::Table;
use arith_word::Label;
use mlir_ir::{ForParts, IrType, Kind, Op, Region, WhileParts};
use std::alloc::AllocError;

/// How many times the arguments of a loop are solved.
pub(crate) const ROUND_LIMIT: u32 = 4;

/// Defines the values of operations, one after another.
#[cycle(walk)]
pub(crate) fn walk_ops(t: &mut Table, ops: &[Op]) -> Result<(), AllocError>
    requires ready { CanWalk t.old (labels_of (view_ops ops.now)) }
    requires uses { DoUseBelow (view_ops ops.now) (next_label t.old) }
    ensures { OnOk result (Says t.old t.new (labels_of (view_ops ops.now))
        (plain.IsOps t.old.conditions.items (view_ops ops.now) (next_label t.old))) }
{
    for op in ops {
        walk_kind(t, op.results.as_slice(), &op.kind)?;
    }
    Ok(())
}

/// Defines the values inside an operation, and its results.
#[cycle(walk)]
fn walk_kind(t: &mut Table, results: &[IrType], kind: &Kind) -> Result<(), AllocError>
    requires ready { CanWalk t.old (inner_labels (view_kind kind.now) + length results.now) }
    requires uses { DoesUseBelow (view_kind kind.now) (next_label t.old) }
    requires carries { CarriesResults (view_kind kind.now) results.now }
    ensures { OnOk result (Says t.old t.new (inner_labels (view_kind kind.now) + length results.now)
        (plain.IsKind t.old.conditions.items (view_kind kind.now) results.now (next_label t.old))) }
{
    match kind {
        Kind::If(c, first, other) => match other {
            None => walk_then(t, results, *c, first),
            Some(other) => walk_branches(t, results, *c, first, other),
        },
        Kind::For(parts) => walk_for(t, results, parts),
        Kind::While(parts) => walk_while(t, results, parts),
        _ => define_results(t, kind, results),
    }
}

/// Defines the values in the region of an `scf.if` without `else`, and its results.
#[cycle(walk)]
fn walk_then(t: &mut Table, results: &[IrType], c: Label, first: &Region) -> Result<(), AllocError>
    requires ready { CanWalk t.old (labels_of (rows_of first.now) + 0 + length results.now) }
    requires uses { DoesUseBelow (then_of c first.now) (next_label t.old) }
    ensures { OnOk result (Says t.old t.new (labels_of (rows_of first.now) + 0 + length results.now)
        (plain.IsKind t.old.conditions.items (then_of c first.now) results.now
        (next_label t.old))) }
{
    let start = t.next();
    walk_first(t, c, first)?;
    define_merged(t, start, results, first.ends.as_slice(), &[])?;
    Ok(())
}

/// Defines the values in both regions of an `scf.if`, and its results.
#[cycle(walk)]
fn walk_branches(
    t: &mut Table,
    results: &[IrType],
    c: Label,
    first: &Region,
    other: &Region,
) -> Result<(), AllocError>
    requires ready { CanWalk t.old (labels_of (rows_of first.now) + labels_of (rows_of other.now)
        + length results.now) }
    requires uses { DoesUseBelow (branches_of c first.now other.now) (next_label t.old) }
    ensures { OnOk result (Says t.old t.new (labels_of (rows_of first.now)
        + labels_of (rows_of other.now) + length results.now)
        (plain.IsKind t.old.conditions.items (branches_of c first.now other.now) results.now
        (next_label t.old))) }
{
    let start = t.next();
    walk_first(t, c, first)?;
    walk_ops(t, other.ops.as_slice())?;
    define_merged(
        t,
        start,
        results,
        first.ends.as_slice(),
        other.ends.as_slice(),
    )?;
    Ok(())
}

/// Defines the values in the first region of an `scf.if` with that condition.
#[cycle(walk)]
fn walk_first(t: &mut Table, c: Label, first: &Region) -> Result<(), AllocError>
    requires ready { CanWalk t.old (labels_of (rows_of first.now)) }
    requires condition { c.0 < next_label t.old }
    requires uses { DoUseBelow (rows_of first.now) (next_label t.old) }
    ensures { OnOk result (Says t.old t.new (labels_of (rows_of first.now))
        (plain.IsOps (t.old.conditions.items ++ c ∷ []) (rows_of first.now) (next_label t.old))) }
{
    t.conditions.push(c)?;
    walk_ops(t, first.ops.as_slice())?;
    t.conditions.pop();
    Ok(())
}

/// Defines the values inside an `scf.for`, its trip count, and its results.
#[cycle(walk)]
fn walk_for(t: &mut Table, results: &[IrType], parts: &ForParts) -> Result<(), AllocError>
    requires ready { CanWalk t.old (inner_labels (view_for parts.now) + length results.now) }
    requires uses { DoesUseBelow (view_for parts.now) (next_label t.old) }
    requires carries { CarriesResults (view_for parts.now) results.now }
    ensures { OnOk result (Says t.old t.new (inner_labels (view_for parts.now) + length results.now)
        (plain.IsKind t.old.conditions.items (view_for parts.now) results.now (next_label t.old))) }
{
    let at = t.here.len();
    let h = for_head(t.next(), parts);
    open_loop(t)?;
    walk_for_rounds(t, &h, &parts.body)?;
    end_for(t, &h, at, results)?;
    Ok(())
}

/// Defines the values inside an `scf.for` in all its rounds.
#[cycle(walk)]
fn walk_for_rounds(t: &mut Table, h: &ForHead, body: &Region) -> Result<(), AllocError>
    requires ready { CanWalk t.old (for_inside_labels h.now body.now) }
    requires place { next_label t.old ≡ h.now.counter.0 + 1 }
    requires labels { first_of_for h.now + length h.now.args.now < 2 ^ 32 }
    requires uses { DoesUseBelow (for_of h.now body.now) h.now.counter.0 }
    ensures { OnOk result (Says t.old t.new (for_inside_labels h.now body.now)
        (plain.Rounds (loop_of_for h.now body.now) (InsideFor t.old.conditions.items h.now body.now)
        plain.round_limit)) }
{
    let len = t.here.len();
    begin_for(t, h)?;
    walk_ops(t, body.ops.as_slice())?;
    'rounds: for round in 0..ROUND_LIMIT {
        let more = next_for(t, h, body.ends.as_slice(), len)?;
        if !more {
            return Ok(());
        }
        walk_ops(t, body.ops.as_slice())?;
    }
    Ok(())
}

/// Defines the values inside an `scf.while`, its trip count, and its results.
#[cycle(walk)]
fn walk_while(t: &mut Table, results: &[IrType], parts: &WhileParts) -> Result<(), AllocError>
    requires ready { CanWalk t.old (inner_labels (view_while parts.now) + length results.now) }
    requires uses { DoesUseBelow (view_while parts.now) (next_label t.old) }
    ensures { OnOk result
        (Says t.old t.new (inner_labels (view_while parts.now) + length results.now)
        (plain.IsKind t.old.conditions.items (view_while parts.now) results.now
        (next_label t.old))) }
{
    let at = t.here.len();
    let h = while_head(t.next(), parts);
    open_loop(t)?;
    walk_while_rounds(t, &h, &parts.before, &parts.after)?;
    end_while(t, &h, at, parts.before.ends.as_slice(), results)?;
    Ok(())
}

/// Defines the values in both regions of an `scf.while`.
#[cycle(walk)]
fn walk_regions(
    t: &mut Table,
    h: &WhileHead,
    before: &Region,
    after: &Region,
) -> Result<(), AllocError>
    requires ready { CanWalk t.old (labels_of (rows_of before.now)
        + (length h.now.params.now + labels_of (rows_of after.now))) }
    requires place { next_label t.old ≡ h.now.counter.0 + 1 + length h.now.args.now }
    requires uses { DoesUseBelow (while_of h.now before.now after.now) h.now.counter.0 }
    ensures { OnOk result
        (WalksRegions t.old.conditions.items h.now before.now after.now t.old t.new) }
{
    walk_ops(t, before.ops.as_slice())?;
    pass_on(t, h, before.ends.as_slice())?;
    walk_ops(t, after.ops.as_slice())?;
    Ok(())
}

/// Defines the values inside an `scf.while` in all its rounds.
#[cycle(walk)]
fn walk_while_rounds(
    t: &mut Table,
    h: &WhileHead,
    before: &Region,
    after: &Region,
) -> Result<(), AllocError>
    requires ready { CanWalk t.old (while_inside_labels h.now before.now after.now) }
    requires place { next_label t.old ≡ h.now.counter.0 + 1 }
    requires labels { first_of_while h.now + length h.now.args.now < 2 ^ 32 }
    requires uses { DoesUseBelow (while_of h.now before.now after.now) h.now.counter.0 }
    ensures { OnOk result (Says t.old t.new (while_inside_labels h.now before.now after.now)
        (plain.Rounds (loop_of_while h.now after.now)
        (InsideWhile t.old.conditions.items h.now before.now after.now) plain.round_limit)) }
{
    let len = t.here.len();
    begin_while(t, h)?;
    walk_regions(t, h, before, after)?;
    'rounds: for round in 0..ROUND_LIMIT {
        let more = next_while(t, h, after.ends.as_slice(), len)?;
        if !more {
            return Ok(());
        }
        walk_regions(t, h, before, after)?;
    }
    Ok(())
}
