//! Whether functions keep the limits.
ghost use Rattle.std.specs.Prelude.{◌≡◌, ◌↔◌, ◌+◌, ◌<◌, ◌≤◌, ◌⊎◌, ◌∷◌, [], length, IsTrue, MatchOption};
ghost use Rattle.std.specs.List.{list_all};
ghost use Rattle.mlir_ir.specs.Check.{IsWellFormed, breaks};
ghost use Rattle.mlir_ir.specs.Limits.{arg_limit, op_limit};
ghost use Rattle.mlir_ir.specs.Operations.{count_of};
ghost use Rattle.mlir_ir.specs.Rules as rules;
ghost use Rattle.mlir_ir.specs.Sized.{SizedArgs, SizedBody, SizedOp, passed_count};
ghost use Rattle.mlir_ir.specs.View.{rows_of, view_for, view_items, view_kind, view_ops, view_while};
ghost use Rattle.mlir_ir.specs.WellFormed.{IsSized, OnlySize};
ghost use Rattle.pass_chain.specs.Kept.{AreKept, IsKept, IsLeftBehind, Keeps, KeepsInside, KeepsItem, KeepsItems};

use arith_word::Text;
use mlir_ir::limits::{
    ARG_LIMIT, ITEM_LIMIT, LABEL_LIMIT, LOOP_LIMIT, NAME_LIMIT, OP_LIMIT, REGION_LIMIT,
    RESULT_LIMIT,
};
use mlir_ir::{Arg, Body, ForParts, Func, Item, Kind, Op, Pack, Region, WhileParts};

/// How many more regions and loops may be opened.
#[derive(Clone, Copy)]
struct Room {
    regions: u32,
    loops: u32,
}

/// How many more operations of the function and labels of the item there may be.
#[derive(Clone, Copy)]
struct Left {
    ops: u32,
    labels: u32,
}

/// What is left behind so many operations and labels; `None` where there are fewer.
fn behind(left: Left, ops: u32, labels: usize) -> Option<Left>
    ensures { MatchOption result ((left.ops < ops) ⊎ (left.labels < labels))
        (λ rest. IsLeftBehind ops labels left rest) }
{
    if left.ops < ops || (left.labels as usize) < labels {
        return None;
    }
    Some(Left {
        ops: left.ops - ops,
        labels: left.labels - labels as u32,
    })
}

/// The room in a region that is opened.
fn in_region(room: Room) -> Option<Room>
    ensures { MatchOption result (room.regions ≡ 0)
        (λ inside. (inside.regions + 1 ≡ room.regions) × (inside.loops ≡ room.loops)) }
{
    if room.regions == 0 {
        return None;
    }
    Some(Room {
        regions: room.regions - 1,
        loops: room.loops,
    })
}

/// The room in a loop that is opened.
fn in_loop(room: Room) -> Option<Room>
    ensures { MatchOption result ((room.regions ≡ 0) ⊎ (room.loops ≡ 0))
        (λ inside. (inside.regions + 1 ≡ room.regions) × (inside.loops + 1 ≡ room.loops)) }
{
    if room.loops == 0 {
        return None;
    }
    let inside = in_region(room)?;
    Some(Room {
        regions: inside.regions,
        loops: room.loops - 1,
    })
}

fn is_short(name: &Text) -> bool
    ensures { result ≡ rules.is_short name.now }
{
    name.as_bytes().len() <= NAME_LIMIT
}

fn are_short(packs: &[Pack]) -> bool
    ensures { result ≡ list_all (λ pack. rules.is_short pack.name) packs.now }
{
    packs.iter().all(|pack| is_short(&pack.name))
}

fn are_args_short(args: &[Arg]) -> bool
    ensures { result ≡ list_all (λ arg. rules.is_short arg.name) args.now }
{
    args.iter().all(|arg| is_short(&arg.name))
}

/// Whether arguments are few, with short names.
fn are_args_sized(args: &[Arg]) -> bool
    ensures { IsTrue result ↔ SizedArgs args.now }
{
    args.len() <= ARG_LIMIT && are_args_short(args)
}

/// Whether a call passes few operands.
fn are_few_passed(kind: &Kind) -> bool
    ensures { IsTrue result ↔ (passed_count (view_kind kind.now) ≤ arg_limit) }
{
    match kind {
        Kind::Call(_, passed) => passed.as_slice().len() <= ARG_LIMIT,
        _ => true,
    }
}

/// Whether an operation by itself keeps the limits, without what stands in its regions.
fn is_op_sized(op: &Op) -> bool
    ensures { IsTrue result ↔ SizedOp op.now.packs op.now.results (view_kind op.now.kind) }
{
    are_short(op.packs.as_slice())
        && op.results.as_slice().len() <= RESULT_LIMIT
        && are_few_passed(&op.kind)
}

/// What is left behind what stands inside an operation; `None` where that passes a limit.
#[cycle(keep)]
fn keep_inside(room: Room, left: Left, kind: &Kind) -> Option<Left>
    ensures { MatchOption result (KeepsInside room left (view_kind kind.now) → ⊥)
        (λ rest. IsKept room left (view_kind kind.now) rest) }
{
    match kind {
        Kind::If(_, first, None) => Some(keep_region(in_region(room)?, left, first)?),
        Kind::If(_, first, Some(other)) => {
            let inside = in_region(room)?;
            let rest = keep_region(inside, left, first)?;
            Some(keep_region(inside, rest, other)?)
        }
        Kind::For(parts) => keep_for(room, left, parts),
        Kind::While(parts) => keep_while(room, left, parts),
        _ => Some(left),
    }
}

#[cycle(keep)]
#[tactic(auto, using(mlir_ir::proofs::PartViews::for_parts))]
fn keep_for(room: Room, left: Left, parts: &ForParts) -> Option<Left>
    ensures { MatchOption result (KeepsInside room left (view_for parts.now) → ⊥)
        (λ rest. IsKept room left (view_for parts.now) rest) }
{
    let args = parts.args.as_slice();
    if !is_short(&parts.iv.name) || !are_args_sized(args) {
        return None;
    }
    let inside = in_loop(room)?;
    let rest = behind(left, 0, 2 + args.len())?;
    Some(keep_region(inside, rest, &parts.body)?)
}

#[cycle(keep)]
#[tactic(auto, using(mlir_ir::proofs::PartViews::while_parts))]
fn keep_while(room: Room, left: Left, parts: &WhileParts) -> Option<Left>
    ensures { MatchOption result (KeepsInside room left (view_while parts.now) → ⊥)
        (λ rest. IsKept room left (view_while parts.now) rest) }
{
    let args = parts.args.as_slice();
    let after_args = parts.after_args.as_slice();
    if !are_args_sized(args) || !are_args_sized(after_args) {
        return None;
    }
    let inside = in_loop(room)?;
    let rest = behind(left, 0, 1 + args.len() + after_args.len())?;
    let rest = keep_region(inside, rest, &parts.before)?;
    Some(keep_region(inside, rest, &parts.after)?)
}

#[cycle(keep)]
#[tactic(auto, using(mlir_ir::proofs::PartViews::region_rows))]
fn keep_region(room: Room, left: Left, region: &Region) -> Option<Left>
    ensures { MatchOption result (Keeps room left (rows_of region.now) → ⊥)
        (λ rest. AreKept room left (rows_of region.now) rest) }
{
    keep_ops(room, left, region.ops.as_slice())
}

/// What is left behind operations; `None` where they pass a limit.
#[cycle(keep)]
fn keep_ops(room: Room, left: Left, ops: &[Op]) -> Option<Left>
    ensures { MatchOption result (Keeps room left (view_ops ops.now) → ⊥)
        (λ rest. AreKept room left (view_ops ops.now) rest) }
{
    let mut left = left;
    for op in ops {
        if !is_op_sized(op) {
            return None;
        }
        let rest = behind(left, 1, op.results.as_slice().len())?;
        left = keep_inside(room, rest, &op.kind)?;
    }
    Some(left)
}

/// What is left behind an item, which has its labels anew; `None` where it passes a limit.
fn keep_item(left: Left, item: &Item) -> Option<Left>
    ensures { MatchOption result (KeepsItem left.ops (view_ops item.now.ops) → ⊥)
        (λ rest. KeepsItem left.ops (view_ops item.now.ops)
        × (rest.ops + count_of (view_ops item.now.ops) ≡ left.ops)) }
{
    let room = Room {
        regions: REGION_LIMIT - 1,
        loops: LOOP_LIMIT,
    };
    let begin = Left {
        labels: LABEL_LIMIT,
        ..left
    };
    keep_ops(room, begin, item.ops.as_slice())
}

/// Whether items keep the limits, and have no more operations than a function may have.
fn are_items_kept(items: &[Item]) -> bool
    ensures { IsTrue result ↔ KeepsItems op_limit (view_items items.now) }
{
    let mut left = Left {
        ops: OP_LIMIT,
        labels: LABEL_LIMIT,
    };
    for item in items {
        match keep_item(left, item) {
            Some(rest) => left = rest,
            None => return false,
        }
    }
    true
}

#[tactic(auto, using(fresh_scev::proofs::FittingLabels::items_length))]
fn is_body_sized(body: &Body) -> bool
    ensures { IsTrue result ↔ SizedBody (view_items body.now.items) }
{
    let items = body.items.as_slice();
    items.len() <= ITEM_LIMIT && are_items_kept(items)
}

/// Whether the function keeps all limits: of names, lists, operations, items, labels of items, open
/// regions and loops. In one walk over it.
pub fn keeps_limits(f: &Func) -> bool
    ensures { IsTrue result ↔ IsSized f.now }
{
    let results = f.results.as_slice();
    if !is_short(&f.name) || RESULT_LIMIT < results.len() || !are_args_sized(f.args.as_slice()) {
        return false;
    }
    match &f.body {
        None => true,
        Some(body) => is_body_sized(body),
    }
}

/// Whether a function that breaks no rule but limits is well formed. In one walk over it.
#[tactic(auto, using(crate::proofs::WithinLimits::within_limits))]
pub fn is_within_limits(f: &Func) -> bool
    requires { OnlySize (breaks f.now) }
    ensures { IsTrue result ↔ IsWellFormed f.now }
{
    keeps_limits(f)
}
