ghost use Rattle.std.specs.Prelude.{◌≡◌, ◌+◌, ⊤, true, length, IfOk, MatchOption, OnOk};
ghost use Rattle.mlir_ir.specs.Operations.{inner_labels, labels_of};
ghost use Rattle.mlir_ir.specs.View.{rows_of, view_for, view_items, view_kind, view_ops, view_while};
ghost use Rattle.pass_copy.specs.Places.{NoneInside, NoneStands, operation_in};
ghost use Rattle.pass_copy.specs.Places as places;
ghost use Rattle.pass_copy.specs.Replaced as spec;
ghost use Rattle.arith_word.specs.Labels.{label_at};

use arith_word::Label;
use mlir_ir::{ForParts, Func, Item, Kind, Op, Region, WhileParts};
use std::alloc::AllocError;

/// Goes so many labels on.
pub fn advance(at: &mut u32, labels: usize) -> Result<(), AllocError>
    ensures { OnOk result (at.new ≡ at.old + labels) }
{
    let room = u32::MAX - *at;
    if labels > room as usize {
        return Err(AllocError);
    }
    *at += labels as u32;
    Ok(())
}

/// Whether the operation is a loop.
pub fn is_loop(kind: &Kind) -> bool
    ensures { result ≡ spec.is_loop (view_kind kind.now) }
{
    matches!(kind, Kind::For(_) | Kind::While(_))
}

/// Whether the operation is an `scf.for`.
fn is_for(kind: &Kind) -> bool
    ensures { result ≡ places.is_for (view_kind kind.now) }
{
    matches!(kind, Kind::For(_))
}

/// Which loops are sought.
#[derive(Clone, Copy)]
enum Wanted {
    /// Each `scf.for`.
    Fors,
    /// Each loop.
    Loops,
}

/// Whether the operation is one of the loops that are sought.
fn is_wanted(kind: &Kind, wanted: Wanted) -> bool
    ensures { result ≡ places.is_wanted wanted (view_kind kind.now) }
{
    match wanted {
        Wanted::Fors => is_for(kind),
        Wanted::Loops => is_loop(kind),
    }
}

/// Goes past the labels of operations.
#[cycle(pass)]
pub(crate) fn pass_ops(at: &mut u32, ops: &[Op]) -> Result<(), AllocError>
    ensures { OnOk result (at.new ≡ at.old + labels_of (view_ops ops.now)) }
{
    for op in ops {
        pass_kind(at, &op.kind)?;
        advance(at, op.results.as_slice().len())?;
    }
    Ok(())
}

/// Goes past the labels inside an operation.
#[cycle(pass)]
pub fn pass_kind(at: &mut u32, kind: &Kind) -> Result<(), AllocError>
    ensures { OnOk result (at.new ≡ at.old + inner_labels (view_kind kind.now)) }
{
    match kind {
        Kind::If(_, first, None) => Ok(pass_region(at, first)?),
        Kind::If(_, first, Some(other)) => {
            pass_region(at, first)?;
            Ok(pass_region(at, other)?)
        }
        Kind::For(parts) => Ok(pass_for(at, parts)?),
        Kind::While(parts) => Ok(pass_while(at, parts)?),
        _ => Ok(()),
    }
}

#[cycle(pass)]
#[tactic(auto, using(mlir_ir::proofs::PartViews::for_parts))]
fn pass_for(at: &mut u32, parts: &ForParts) -> Result<(), AllocError>
    ensures { OnOk result (at.new ≡ at.old + inner_labels (view_for parts.now)) }
{
    advance(at, 2)?;
    advance(at, parts.args.as_slice().len())?;
    Ok(pass_region(at, &parts.body)?)
}

#[cycle(pass)]
#[tactic(auto, using(mlir_ir::proofs::PartViews::while_parts))]
fn pass_while(at: &mut u32, parts: &WhileParts) -> Result<(), AllocError>
    ensures { OnOk result (at.new ≡ at.old + inner_labels (view_while parts.now)) }
{
    advance(at, 1)?;
    advance(at, parts.args.as_slice().len())?;
    pass_region(at, &parts.before)?;
    advance(at, parts.after_args.as_slice().len())?;
    Ok(pass_region(at, &parts.after)?)
}

#[cycle(pass)]
#[tactic(auto, using(mlir_ir::proofs::PartViews::region_rows, mlir_ir::proofs::PartViews::region_ends))]
fn pass_region(at: &mut u32, region: &Region) -> Result<(), AllocError>
    ensures { OnOk result (at.new ≡ at.old + labels_of (rows_of region.now)) }
{
    Ok(pass_ops(at, region.ops.as_slice())?)
}

/// How many labels operations take.
///
/// # Errors
///
/// Where they are 2^32 or more.
pub fn labels_in(ops: &[Op]) -> Result<u32, AllocError>
    ensures { IfOk result (λ n. n ≡ labels_of (view_ops ops.now)) }
{
    let mut at = 0;
    pass_ops(&mut at, ops)?;
    Ok(at)
}

/// The loop with that label in operations, where it is sought; behind them where there is none.
#[cycle(find)]
fn find_in_ops<'a>(
    at: &mut u32,
    ops: &'a [Op],
    target: Label,
    wanted: Wanted,
) -> Result<Option<&'a Op>, AllocError>
    ensures found { IfOk result (λ found. MatchOption found (NoneStands wanted target.0 at.old
        (view_ops ops.now))
        (λ op. places.IsWantedIn wanted target.0 (operation_in op.now) at.old (view_ops ops.now))) }
    ensures behind { IfOk result (λ found. MatchOption found (at.new ≡ at.old + labels_of
        (view_ops ops.now)) (λ op. ⊤)) }
{
    for op in ops {
        if is_wanted(&op.kind, wanted) && *at == target.0 {
            return Ok(Some(op));
        }
        let found = find_inside(at, &op.kind, target, wanted)?;
        if found.is_some() {
            return Ok(found);
        }
        advance(at, op.results.as_slice().len())?;
    }
    Ok(None)
}

/// The loop with that label in the regions of an operation; behind these where there is none.
#[cycle(find)]
fn find_inside<'a>(
    at: &mut u32,
    kind: &'a Kind,
    target: Label,
    wanted: Wanted,
) -> Result<Option<&'a Op>, AllocError>
    ensures found { IfOk result (λ found. MatchOption found (NoneInside wanted target.0 at.old
        (view_kind kind.now))
        (λ op. places.IsWantedInside wanted target.0 (operation_in op.now) at.old (view_kind kind.now))) }
    ensures behind { IfOk result (λ found. MatchOption found (at.new ≡ at.old + inner_labels
        (view_kind kind.now)) (λ op. ⊤)) }
{
    match kind {
        Kind::If(_, first, None) => Ok(find_in_region(at, first, target, wanted)?),
        Kind::If(_, first, Some(other)) => {
            let found = find_in_region(at, first, target, wanted)?;
            if found.is_some() {
                return Ok(found);
            }
            Ok(find_in_region(at, other, target, wanted)?)
        }
        Kind::For(parts) => Ok(find_in_for(at, parts, target, wanted)?),
        Kind::While(parts) => Ok(find_in_while(at, parts, target, wanted)?),
        _ => Ok(None),
    }
}

#[cycle(find)]
#[tactic(auto, using(mlir_ir::proofs::PartViews::for_parts))]
fn find_in_for<'a>(
    at: &mut u32,
    parts: &'a ForParts,
    target: Label,
    wanted: Wanted,
) -> Result<Option<&'a Op>, AllocError>
    ensures found { IfOk result (λ found. MatchOption found (NoneInside wanted target.0 at.old
        (view_for parts.now))
        (λ op. places.IsWantedInside wanted target.0 (operation_in op.now) at.old (view_for parts.now))) }
    ensures behind { IfOk result (λ found. MatchOption found (at.new ≡ at.old + inner_labels
        (view_for parts.now)) (λ op. ⊤)) }
{
    advance(at, 2)?;
    advance(at, parts.args.as_slice().len())?;
    Ok(find_in_region(at, &parts.body, target, wanted)?)
}

#[cycle(find)]
#[tactic(auto, using(mlir_ir::proofs::PartViews::while_parts))]
fn find_in_while<'a>(
    at: &mut u32,
    parts: &'a WhileParts,
    target: Label,
    wanted: Wanted,
) -> Result<Option<&'a Op>, AllocError>
    ensures found { IfOk result (λ found. MatchOption found (NoneInside wanted target.0 at.old
        (view_while parts.now))
        (λ op. places.IsWantedInside wanted target.0 (operation_in op.now) at.old (view_while parts.now))) }
    ensures behind { IfOk result (λ found. MatchOption found (at.new ≡ at.old + inner_labels
        (view_while parts.now)) (λ op. ⊤)) }
{
    advance(at, 1)?;
    advance(at, parts.args.as_slice().len())?;
    let found = find_in_region(at, &parts.before, target, wanted)?;
    if found.is_some() {
        return Ok(found);
    }
    advance(at, parts.after_args.as_slice().len())?;
    Ok(find_in_region(at, &parts.after, target, wanted)?)
}

#[cycle(find)]
#[tactic(auto, using(mlir_ir::proofs::PartViews::region_rows))]
fn find_in_region<'a>(
    at: &mut u32,
    region: &'a Region,
    target: Label,
    wanted: Wanted,
) -> Result<Option<&'a Op>, AllocError>
    ensures found { IfOk result (λ found. MatchOption found (NoneStands wanted target.0 at.old
        (rows_of region.now))
        (λ op. places.IsWantedIn wanted target.0 (operation_in op.now) at.old (rows_of region.now))) }
    ensures behind { IfOk result (λ found. MatchOption found (at.new ≡ at.old + labels_of
        (rows_of region.now)) (λ op. ⊤)) }
{
    Ok(find_in_ops(at, region.ops.as_slice(), target, wanted)?)
}

/// The first label of an item.
pub(crate) fn item_label(func: u8, number: usize) -> Result<u32, AllocError>
    ensures { IfOk result (λ at. at ≡ label_at func number 0) }
{
    if number >= Label::ITEM_COUNT as usize {
        return Err(AllocError);
    }
    Ok(Label::new(func, number, 0).0)
}

/// The loop with that label in items, where it is sought; `None` where there is none.
fn find_in_items<'a>(
    func: u8,
    items: &'a [Item],
    target: Label,
    wanted: Wanted,
) -> Result<Option<&'a Op>, AllocError>
    ensures { IfOk result (λ found. MatchOption found
        ((o : spec.Operation) → places.is_wanted wanted o.kind ≡ true
        → spec.StandsInItems target.0 o func 1 (view_items items.now) → ⊥)
        (λ op. (places.is_wanted wanted (operation_in op.now).kind ≡ true)
        × spec.StandsInItems target.0 (operation_in op.now) func 1 (view_items items.now))) }
{
    for (index, item) in items.iter().enumerate() {
        let mut at = item_label(func, index + 1)?;
        let found = find_in_ops(&mut at, item.ops.as_slice(), target, wanted)?;
        if found.is_some() {
            return Ok(found);
        }
    }
    Ok(None)
}

/// The loop with that label in a function, where it is sought; `None` where there is none.
fn find_in_func(f: &Func, target: Label, wanted: Wanted) -> Result<Option<&Op>, AllocError>
    ensures { IfOk result (λ found. MatchOption found
        ((o : spec.Operation) → places.is_wanted wanted o.kind ≡ true
        → spec.StandsAt f.now target.0 o → ⊥)
        (λ op. (places.is_wanted wanted (operation_in op.now).kind ≡ true)
        × spec.StandsAt f.now target.0 (operation_in op.now))) }
{
    match &f.body {
        None => Ok(None),
        Some(body) => {
            let items = body.items.as_slice();
            Ok(find_in_items(f.index, items, target, wanted)?)
        }
    }
}

/// The `scf.for` with that label; `None` where there is none.
///
/// # Errors
///
/// Where the labels of the function go past the last one.
pub fn found_for(f: &Func, target: Label) -> Result<Option<&Op>, AllocError>
    ensures { IfOk result (λ found. MatchOption found
        ((o : spec.Operation) → places.is_for o.kind ≡ true → spec.StandsAt f.now target.0 o → ⊥)
        (λ op. (places.is_for (operation_in op.now).kind ≡ true)
        × spec.StandsAt f.now target.0 (operation_in op.now))) }
{
    Ok(find_in_func(f, target, Wanted::Fors)?)
}

/// The loop with that label, an `scf.for` or an `scf.while`; `None` where there is none.
///
/// # Errors
///
/// Where the labels of the function go past the last one.
pub fn found_loop(f: &Func, target: Label) -> Result<Option<&Op>, AllocError>
    ensures { IfOk result (λ found. MatchOption found
        ((o : spec.Operation) → spec.is_loop o.kind ≡ true → spec.StandsAt f.now target.0 o → ⊥)
        (λ op. (spec.is_loop (operation_in op.now).kind ≡ true)
        × spec.StandsAt f.now target.0 (operation_in op.now))) }
{
    Ok(find_in_func(f, target, Wanted::Loops)?)
}
