ghost use Rattle.std.specs.Prelude.{◌≡◌, IfOk};
ghost use Rattle.mlir_ir.specs.View.{ends_of, rows_of, view_ops};

use crate::copies::{copy_arg, copy_args, copy_ops, copy_packs};
use crate::names::Names;
use crate::renaming::Renaming;
use arith_word::{Label, List};
use mlir_ir::{Arg, Op, Pack, Region};
use sqlite_items::Items;
use std::alloc::{AllocError, Global};

/// A copy of labels.
pub fn same_labels(alloc: Global, labels: &[Label]) -> Result<List<Label>, AllocError>
    ensures { IfOk result (λ made. made ≡ labels.now) }
{
    let mut made = Vec::with_capacity(alloc, labels.len())?;
    for l in labels {
        made.push(*l)?;
    }
    Ok(List::from_vec(made))
}

/// A copy of arguments with their names.
pub fn same_args(alloc: Global, args: &[Arg]) -> Result<List<Arg>, AllocError>
    ensures { IfOk result (λ made. made ≡ args.now) }
{
    let mut names = Names::kept(alloc);
    let made = copy_args(alloc, args, &mut names)?;
    Ok(made)
}

/// A copy of packs with their names.
pub fn same_packs(alloc: Global, packs: &[Pack]) -> Result<List<Pack>, AllocError>
    ensures { IfOk result (λ made. made ≡ packs.now) }
{
    let mut names = Names::kept(alloc);
    let made = copy_packs(alloc, packs, &mut names)?;
    Ok(made)
}

/// A copy of an argument with its name.
pub fn same_arg(alloc: Global, arg: &Arg) -> Result<Arg, AllocError>
    ensures { IfOk result (λ made. made ≡ arg.now) }
{
    let mut names = Names::kept(alloc);
    let made = copy_arg(alloc, arg, &mut names)?;
    Ok(made)
}

/// A region of these operations, which gives on these values.
#[tactic(auto, using(mlir_ir::proofs::PartViews::region_rows, mlir_ir::proofs::PartViews::region_ends))]
pub fn region_of(ops: Vec<Op>, ends: List<Label>) -> Region
    ensures ops { rows_of result ≡ view_ops ops.items }
    ensures ends { ends_of result ≡ ends }
{
    Region {
        ops: Items::from_vec(ops),
        ends,
    }
}

/// A copy of operations with their names and their uses.
pub(crate) fn same_ops(alloc: Global, ops: &[Op]) -> Result<Vec<Op>, AllocError>
    ensures { IfOk result (λ made. view_ops made.items ≡ view_ops ops.now) }
{
    let mut names = Names::kept(alloc);
    let map = Renaming {
        spans: Vec::new(alloc),
    };
    let made = copy_ops(alloc, ops, &map, &mut names)?;
    Ok(made)
}
