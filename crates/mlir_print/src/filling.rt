ghost use Rattle.std.specs.Prelude.{◌≡◌, ℕ, ◌+◌, [], ◌∷◌, ◌++◌, length, take, OnOk};
ghost use Rattle.mlir_ir.specs.Labels.{kind_labels, ops_labels, region_labels};
ghost use Rattle.mlir_ir.specs.Values.{arg_values, kind_values, ops_values, pack_values, region_values, result_values};
ghost use Rattle.mlir_print.specs.Slots.{AreAdded};

use crate::naming::Slot;
use mlir_ir::{Arg, ForParts, IrType, Kind, Op, Pack, Region, WhileParts};
use std::alloc::AllocError;
use std::slice;

/// Adds a slot for a label that no value has.
fn add_none<'a>(row: &mut Vec<Slot<'a>>) -> Result<(), AllocError>
    ensures { OnOk result (AreAdded row.old.items row.new.items 1 (λ at. [])) }
{
    row.push(Slot::Empty)?;
    Ok(())
}

/// Adds the slots of results without a name.
fn add_unnamed<'a>(row: &mut Vec<Slot<'a>>, types: &[IrType]) -> Result<(), AllocError>
    ensures { OnOk result (AreAdded row.old.items row.new.items (length types.now) (λ at. [])) }
{
    for ty in types {
        let _ = ty;
        add_none(row)?;
    }
    Ok(())
}

/// Adds the slots of arguments.
pub(crate) fn add_args<'a>(row: &mut Vec<Slot<'a>>, args: &'a [Arg]) -> Result<(), AllocError>
    ensures { OnOk result
        (AreAdded row.old.items row.new.items (length args.now) (λ at. arg_values at args.now)) }
{
    for arg in args {
        row.push(Slot::Argument(arg))?;
    }
    Ok(())
}

/// Adds the slots of the results with one name.
fn add_pack<'a>(
    row: &mut Vec<Slot<'a>>,
    pack: &'a Pack,
    types: &'a [IrType],
) -> Result<(), AllocError>
    ensures { OnOk result
        (AreAdded row.old.items row.new.items (length types.now)
        (λ at. pack_values at pack.now 0 types.now)) }
{
    for (place, ty) in types.iter().enumerate() {
        row.push(Slot::Part(pack, place, ty))?;
    }
    Ok(())
}

/// Adds the slots of an operation's results, those without a name at the end.
fn add_results<'a>(
    row: &mut Vec<Slot<'a>>,
    packs: &'a [Pack],
    types: &'a [IrType],
) -> Result<(), AllocError>
    ensures { OnOk result
        (AreAdded row.old.items row.new.items (length types.now)
        (λ at. result_values at packs.now types.now)) }
{
    let mut left = types;
    for pack in packs {
        let (named, more) = left.split_at(left.len().min(pack.count as usize));
        add_pack(row, pack, named)?;
        left = more;
    }
    add_unnamed(row, left)?;
    Ok(())
}

/// Adds the slots of operations.
#[cycle(fill)]
pub(crate) fn add_ops<'a>(row: &mut Vec<Slot<'a>>, ops: &'a [Op]) -> Result<(), AllocError>
    ensures { OnOk result
        (AreAdded row.old.items row.new.items (ops_labels ops.now) (λ at. ops_values at ops.now)) }
{
    for op in ops {
        add_kind(row, &op.kind)?;
        add_results(row, op.packs.as_slice(), op.results.as_slice())?;
    }
    Ok(())
}

/// Adds the slots of a region.
#[cycle(fill)]
fn add_region<'a>(row: &mut Vec<Slot<'a>>, region: &'a Region) -> Result<(), AllocError>
    ensures { OnOk result
        (AreAdded row.old.items row.new.items (region_labels region.now)
        (λ at. region_values at region.now)) }
{
    add_ops(row, region.ops.as_slice())?;
    Ok(())
}

/// Adds the slots of what stands inside an operation.
#[cycle(fill)]
fn add_kind<'a>(row: &mut Vec<Slot<'a>>, kind: &'a Kind) -> Result<(), AllocError>
    ensures { OnOk result
        (AreAdded row.old.items row.new.items (kind_labels kind.now)
        (λ at. kind_values at kind.now)) }
{
    match kind {
        Kind::If(_, first, None) => add_region(row, first),
        Kind::If(_, first, Some(other)) => {
            add_region(row, first)?;
            add_region(row, other)
        }
        Kind::For(parts) => add_for(row, parts),
        Kind::While(parts) => add_while(row, parts),
        _ => Ok(()),
    }
}

/// Adds the slots of a loop, the first for its counter.
#[cycle(fill)]
fn add_for<'a>(row: &mut Vec<Slot<'a>>, parts: &'a ForParts) -> Result<(), AllocError>
    ensures { OnOk result
        (AreAdded row.old.items row.new.items (kind_labels (Kind.For parts.now))
        (λ at. kind_values at (Kind.For parts.now))) }
{
    add_none(row)?;
    add_args(row, slice::from_ref(&parts.iv))?;
    add_args(row, parts.args.as_slice())?;
    add_region(row, &parts.body)
}

/// Adds the slots of a loop, the first for its counter.
#[cycle(fill)]
fn add_while<'a>(row: &mut Vec<Slot<'a>>, parts: &'a WhileParts) -> Result<(), AllocError>
    ensures { OnOk result
        (AreAdded row.old.items row.new.items (kind_labels (Kind.While parts.now))
        (λ at. kind_values at (Kind.While parts.now))) }
{
    add_none(row)?;
    add_args(row, parts.args.as_slice())?;
    add_region(row, &parts.before)?;
    add_args(row, parts.after_args.as_slice())?;
    add_region(row, &parts.after)
}
