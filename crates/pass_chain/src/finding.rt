ghost use Rattle.std.specs.Prelude.{◌≡◌, ◌+◌, ◌<◌, ◌≤◌, ◌^◌, length, false, MatchOption};
ghost use Rattle.mlir_ir.specs.Check.{IsWellFormed};
ghost use Rattle.mlir_ir.specs.Limits.{item_limit};
ghost use Rattle.mlir_ir.specs.Operations.{inner_labels, labels_of};
ghost use Rattle.mlir_ir.specs.Sized.{SizedItems};
ghost use Rattle.mlir_ir.specs.View.{rows_of, view_for, view_items, view_kind, view_ops, view_while};
ghost use Rattle.pass_chain.specs.Finding.{FindsInItems, FindsInKind, FindsInOps, IsNowhere, IsThere, is_for};
ghost use Rattle.pass_chain.specs.Plans.{HasBounds, IsFor, IsForWith};

use crate::bounds::{Bounds, bounds_of};
use arith_word::Label;
use mlir_ir::{ForParts, Func, Item, Kind, Op, Region, WhileParts};

/// The bounds of the operation, where it is an `scf.for`.
fn bounds_in(kind: &Kind) -> Option<Bounds>
    ensures { MatchOption result (is_for (view_kind kind.now) ≡ false)
        (λ b. HasBounds b (view_kind kind.now)) }
{
    match kind {
        Kind::For(parts) => Some(bounds_of(parts)),
        _ => None,
    }
}

/// The same in the regions of an operation.
#[cycle(find)]
fn find_inside(at: &mut u32, kind: &Kind, target: Label) -> Option<Bounds>
    requires { at.now + inner_labels (view_kind kind.now) < 2 ^ 32 }
    ensures { FindsInKind target.0 at.old (view_kind kind.now) at.new result }
{
    match kind {
        Kind::If(_, first, None) => find_in_region(at, first, target),
        Kind::If(_, first, Some(other)) => {
            let found = find_in_region(at, first, target);
            if found.is_some() {
                return found;
            }
            find_in_region(at, other, target)
        }
        Kind::For(parts) => find_in_for(at, parts, target),
        Kind::While(parts) => find_in_while(at, parts, target),
        _ => None,
    }
}

#[cycle(find)]
#[tactic(auto, using(mlir_ir::proofs::PartViews::for_parts))]
fn find_in_for(at: &mut u32, parts: &ForParts, target: Label) -> Option<Bounds>
    requires { at.now + inner_labels (view_for parts.now) < 2 ^ 32 }
    ensures { FindsInKind target.0 at.old (view_for parts.now) at.new result }
{
    *at += 2 + parts.args.as_slice().len() as u32;
    find_in_region(at, &parts.body, target)
}

#[cycle(find)]
#[tactic(auto, using(mlir_ir::proofs::PartViews::while_parts))]
fn find_in_while(at: &mut u32, parts: &WhileParts, target: Label) -> Option<Bounds>
    requires { at.now + inner_labels (view_while parts.now) < 2 ^ 32 }
    ensures { FindsInKind target.0 at.old (view_while parts.now) at.new result }
{
    *at += 1 + parts.args.as_slice().len() as u32;
    let found = find_in_region(at, &parts.before, target);
    if found.is_some() {
        return found;
    }
    *at += parts.after_args.as_slice().len() as u32;
    find_in_region(at, &parts.after, target)
}

/// The bounds of the `scf.for` with that label in a region, of which the first operation begins with
/// the label `at`, which goes behind them where there is none.
#[cycle(find)]
#[tactic(auto, using(mlir_ir::proofs::PartViews::region_rows))]
fn find_in_region(at: &mut u32, region: &Region, target: Label) -> Option<Bounds>
    requires { at.now + labels_of (rows_of region.now) < 2 ^ 32 }
    ensures { FindsInOps target.0 at.old (rows_of region.now) at.new result }
{
    for op in region.ops.as_slice() {
        if *at == target.0 {
            let here = bounds_in(&op.kind);
            if here.is_some() {
                return here;
            }
        }
        let found = find_inside(at, &op.kind, target);
        if found.is_some() {
            return found;
        }
        *at += op.results.as_slice().len() as u32;
    }
    None
}

/// The same in an item.
fn find_in_item(at: u32, item: &Item, target: Label) -> Option<Bounds>
    requires { at + labels_of (view_ops item.now.ops) < 2 ^ 32 }
    ensures { MatchOption result (IsNowhere target.0 at (view_ops item.now.ops))
        (λ b. IsThere target.0 at (view_ops item.now.ops) b) }
{
    let mut at = at;
    for op in item.ops.as_slice() {
        if at == target.0 {
            let here = bounds_in(&op.kind);
            if here.is_some() {
                return here;
            }
        }
        let found = find_inside(&mut at, &op.kind, target);
        if found.is_some() {
            return found;
        }
        at += op.results.as_slice().len() as u32;
    }
    None
}

/// The bounds of the `scf.for` with that label in the items of a function.
#[tactic(auto, using(crate::proofs::SoughtItems::sought_items))]
fn find_in_items(func: u8, items: &[Item], target: Label) -> Option<Bounds>
    requires sized { SizedItems (view_items items.now) }
    requires few { length items.now ≤ item_limit }
    ensures { FindsInItems target.0 func (view_items items.now) result }
{
    for (k, item) in items.iter().enumerate() {
        let at = Label::new(func, k + 1, 0).0;
        let found = find_in_item(at, item, target);
        if found.is_some() {
            return found;
        }
    }
    None
}

/// The bounds of the `scf.for` with that label; `None` exactly where there is none.
#[tactic(auto, using(crate::proofs::FoundLoops::found_in_func, crate::proofs::FoundLoops::none_in_func, crate::proofs::FoundLoops::few_items, crate::proofs::FoundLoops::sized_items))]
pub fn find_for(f: &Func, target: Label) -> Option<Bounds>
    requires { IsWellFormed f.now }
    ensures { MatchOption result (IsFor f.now target.0 → ⊥) (λ b. IsForWith f.now target.0 b) }
{
    match &f.body {
        None => None,
        Some(body) => find_in_items(f.index, body.items.as_slice(), target),
    }
}
