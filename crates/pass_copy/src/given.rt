ghost use Rattle.std.specs.Prelude.{◌≡◌, ◌++◌, ◌∷◌, [], length, min, map, replicate, OnOk, IfOk};
ghost use Rattle.mlir_ir.specs.Values.{func_values};
ghost use Rattle.mlir_ir.specs.View.{view_for, view_items, view_kind, view_ops, view_while, rows_of};
ghost use Rattle.pass_copy.specs.Listed.{arg_names, inner_listed, items_listed, listed_names, pack_names, texts};
ghost use Rattle.pass_copy.specs.Fresh.{value_names};

use crate::taken::Taken;
use mlir_ir::{Arg, ForParts, Func, Item, Kind, Op, Pack, Region, WhileParts};
use std::alloc::{AllocError, Global};

/// Adds the names of arguments.
fn push_args<'f>(taken: &mut Taken<'f>, args: &'f [Arg]) -> Result<(), AllocError>
    ensures { OnOk result (texts taken.new.names.items
        ≡ texts taken.old.names.items ++ arg_names args.now) }
{
    for arg in args {
        taken.push(arg.name.as_bytes())?;
    }
    Ok(())
}

/// Adds a name so many times.
#[tactic(auto, using(crate::proofs::ListedNames::times_step))]
fn push_times<'f>(taken: &mut Taken<'f>, name: &'f [u8], times: usize) -> Result<(), AllocError>
    ensures { OnOk result
        (texts taken.new.names.items ≡ texts taken.old.names.items ++ replicate times name.now) }
{
    for _time in 0..times {
        taken.push(name)?;
    }
    Ok(())
}

/// Adds the names of so many results, one for each.
fn push_packs<'f>(
    taken: &mut Taken<'f>,
    packs: &'f [Pack],
    results: usize,
) -> Result<(), AllocError>
    ensures { OnOk result
        (texts taken.new.names.items ≡ texts taken.old.names.items
        ++ pack_names packs.now results) }
{
    let mut left = results;
    for pack in packs {
        let count = usize::from(pack.count);
        push_times(taken, pack.name.as_bytes(), count.min(left))?;
        left = left.saturating_sub(count);
    }
    Ok(())
}

/// Adds the names of the values in the regions of an operation.
#[cycle(given)]
fn push_inner<'f>(taken: &mut Taken<'f>, kind: &'f Kind) -> Result<(), AllocError>
    ensures { OnOk result
        (texts taken.new.names.items ≡ texts taken.old.names.items
        ++ inner_listed (view_kind kind.now)) }
{
    match kind {
        Kind::If(_, first, None) => Ok(push_region(taken, first)?),
        Kind::If(_, first, Some(other)) => {
            push_region(taken, first)?;
            Ok(push_region(taken, other)?)
        }
        Kind::For(parts) => Ok(push_for(taken, parts)?),
        Kind::While(parts) => Ok(push_while(taken, parts)?),
        _ => Ok(()),
    }
}

/// Adds the names of a loop's variable and arguments, and those in its body.
#[cycle(given)]
#[tactic(auto, using(mlir_ir::proofs::PartViews::for_parts))]
fn push_for<'f>(taken: &mut Taken<'f>, parts: &'f ForParts) -> Result<(), AllocError>
    ensures { OnOk result
        (texts taken.new.names.items ≡ texts taken.old.names.items
        ++ inner_listed (view_for parts.now)) }
{
    taken.push(parts.iv.name.as_bytes())?;
    push_args(taken, parts.args.as_slice())?;
    Ok(push_region(taken, &parts.body)?)
}

/// Adds the names of a loop's arguments and parameters, and those in its regions.
#[cycle(given)]
#[tactic(auto, using(mlir_ir::proofs::PartViews::while_parts))]
fn push_while<'f>(taken: &mut Taken<'f>, parts: &'f WhileParts) -> Result<(), AllocError>
    ensures { OnOk result
        (texts taken.new.names.items ≡ texts taken.old.names.items
        ++ inner_listed (view_while parts.now)) }
{
    push_args(taken, parts.args.as_slice())?;
    push_region(taken, &parts.before)?;
    push_args(taken, parts.after_args.as_slice())?;
    Ok(push_region(taken, &parts.after)?)
}

/// Adds the names of the values in a region.
#[cycle(given)]
#[tactic(auto, using(mlir_ir::proofs::PartViews::region_rows, mlir_ir::proofs::PartViews::region_ends))]
fn push_region<'f>(taken: &mut Taken<'f>, region: &'f Region) -> Result<(), AllocError>
    ensures { OnOk result
        (texts taken.new.names.items ≡ texts taken.old.names.items
        ++ listed_names (rows_of region.now)) }
{
    Ok(push_ops(taken, region.ops.as_slice())?)
}

/// Adds the names of the values that operations define, in their regions too.
#[cycle(given)]
fn push_ops<'f>(taken: &mut Taken<'f>, ops: &'f [Op]) -> Result<(), AllocError>
    ensures { OnOk result
        (texts taken.new.names.items ≡ texts taken.old.names.items
        ++ listed_names (view_ops ops.now)) }
{
    for op in ops {
        push_inner(taken, &op.kind)?;
        push_packs(taken, op.packs.as_slice(), op.results.as_slice().len())?;
    }
    Ok(())
}

/// Adds the names of the values that items define.
fn push_items<'f>(taken: &mut Taken<'f>, items: &'f [Item]) -> Result<(), AllocError>
    ensures { OnOk result
        (texts taken.new.names.items ≡ texts taken.old.names.items
        ++ items_listed (view_items items.now)) }
{
    for item in items {
        push_ops(taken, item.ops.as_slice())?;
    }
    Ok(())
}

/// The names of a function's values.
#[tactic(auto, using(crate::proofs::ListedNames::declared_names, crate::proofs::ListedNames::defined_names))]
pub(crate) fn names_in<'f>(alloc: Global, f: &'f Func) -> Result<Taken<'f>, AllocError>
    ensures { IfOk result (λ taken. texts taken.names.items ≡ value_names f.now) }
{
    let mut taken = Taken::new(alloc);
    push_args(&mut taken, f.args.as_slice())?;
    let Some(body) = &f.body else {
        return Ok(taken);
    };
    push_items(&mut taken, body.items.as_slice())?;
    Ok(taken)
}
