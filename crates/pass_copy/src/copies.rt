ghost use Rattle.std.specs.Prelude.{◌≡◌, ◌+◌, length, IfOk, OnOk};
ghost use Rattle.mlir_ir.specs.Operations as plain;
ghost use Rattle.mlir_ir.specs.View.{ends_of, rows_of, view_for, view_kind, view_ops, view_while};
ghost use Rattle.pass_copy.specs.Copied.{HaveGiven, naming};
ghost use Rattle.pass_copy.specs.Renamed.{inner_names, names_of, relabels, rename_args, rename_kind, rename_ops, rename_packs};
ghost use Rattle.pass_copy.specs.Renaming.{renamed};

use crate::names::Names;
use crate::renaming::Renaming;
use crate::same::region_of;
use arith_word::{Label, List};
use mlir_ir::{Arg, ForParts, IrType, Kind, Op, Pack, Region, WhileParts};
use std::alloc::{AllocError, Global};

/// A copy of an argument.
pub fn copy_arg(alloc: Global, arg: &Arg, names: &mut Names) -> Result<Arg, AllocError>
    ensures arg { IfOk result (λ made. made
        ≡ record { name = naming names.old names.old.given arg.now.name; ty = arg.now.ty }) }
    ensures given { OnOk result (HaveGiven names.old 1 names.new) }
{
    let name = names.name(alloc, &arg.name)?;
    Ok(Arg { name, ty: arg.ty })
}

/// Copies of arguments.
pub fn copy_args(alloc: Global, args: &[Arg], names: &mut Names) -> Result<List<Arg>, AllocError>
    ensures args { IfOk result (λ made. made
        ≡ rename_args (naming names.old) names.old.given args.now) }
    ensures given { OnOk result (HaveGiven names.old (length args.now) names.new) }
{
    let mut made = Vec::with_capacity(alloc, args.len())?;
    for arg in args {
        made.push(copy_arg(alloc, arg, names)?)?;
    }
    Ok(List::from_vec(made))
}

/// A copy of a pack.
fn copy_pack(alloc: Global, pack: &Pack, names: &mut Names) -> Result<Pack, AllocError>
    ensures pack { IfOk result (λ made. made
        ≡ record {
          name = naming names.old names.old.given pack.now.name;
          count =
              pack.now.count;
        }) }
    ensures given { OnOk result (HaveGiven names.old 1 names.new) }
{
    let name = names.name(alloc, &pack.name)?;
    Ok(Pack {
        name,
        count: pack.count,
    })
}

/// Copies of packs.
pub fn copy_packs(
    alloc: Global,
    packs: &[Pack],
    names: &mut Names,
) -> Result<List<Pack>, AllocError>
    ensures packs { IfOk result (λ made. made
        ≡ rename_packs (naming names.old) names.old.given packs.now) }
    ensures given { OnOk result (HaveGiven names.old (length packs.now) names.new) }
{
    let mut made = Vec::with_capacity(alloc, packs.len())?;
    for pack in packs {
        made.push(copy_pack(alloc, pack, names)?)?;
    }
    Ok(List::from_vec(made))
}

/// A copy of types.
pub fn copy_types(alloc: Global, types: &[IrType]) -> Result<List<IrType>, AllocError>
    ensures { IfOk result (λ made. made ≡ types.now) }
{
    let mut made = Vec::with_capacity(alloc, types.len())?;
    for ty in types {
        made.push(*ty)?;
    }
    Ok(List::from_vec(made))
}

/// Copies of operations: uses follow the renaming, and each name is given in its turn.
///
/// # Errors
///
/// Where memory is refused. The same error stands for more than 2^32 names.
#[cycle(copy)]
pub fn copy_ops(
    alloc: Global,
    ops: &[Op],
    map: &Renaming,
    names: &mut Names,
) -> Result<Vec<Op>, AllocError>
    ensures ops { IfOk result (λ made. view_ops made.items
        ≡ rename_ops (renamed map.now.spans.items) (naming names.old) names.old.given
        (view_ops ops.now)) }
    ensures given { OnOk result (HaveGiven names.old (names_of (view_ops ops.now)) names.new) }
{
    let mut made = Vec::with_capacity(alloc, ops.len())?;
    for op in ops {
        made.push(copy_op(alloc, op, map, names)?)?;
    }
    Ok(made)
}

/// A copy of one operation.
#[cycle(copy)]
pub fn copy_op(alloc: Global, op: &Op, map: &Renaming, names: &mut Names) -> Result<Op, AllocError>
    ensures packs { IfOk result (λ made. made.packs
        ≡ rename_packs (naming names.old) (names.old.given + inner_names
        (view_kind op.now.kind)) op.now.packs) }
    ensures results { IfOk result (λ made. made.results ≡ op.now.results) }
    ensures kind { IfOk result (λ made. view_kind made.kind
        ≡ rename_kind (renamed map.now.spans.items) (naming names.old) names.old.given
        (view_kind op.now.kind)) }
    ensures given { OnOk result (HaveGiven names.old (inner_names
        (view_kind op.now.kind) + length op.now.packs) names.new) }
{
    let kind = copy_kind(alloc, &op.kind, map, names)?;
    let packs = copy_packs(alloc, op.packs.as_slice(), names)?;
    let results = copy_types(alloc, op.results.as_slice())?;
    Ok(Op {
        packs,
        results,
        kind,
    })
}

/// A copy of what an operation does.
#[cycle(copy)]
fn copy_kind(
    alloc: Global,
    kind: &Kind,
    map: &Renaming,
    names: &mut Names,
) -> Result<Kind, AllocError>
    ensures kind { IfOk result (λ made. view_kind made
        ≡ rename_kind (renamed map.now.spans.items) (naming names.old) names.old.given
        (view_kind kind.now)) }
    ensures given { OnOk result (HaveGiven names.old (inner_names (view_kind kind.now)) names.new) }
{
    match kind {
        Kind::Const(v) => Ok(Kind::Const(*v)),
        Kind::Bin(op, flags, a, b) => Ok(Kind::Bin(*op, *flags, map.label(*a)?, map.label(*b)?)),
        Kind::Cast(op, flags, a) => Ok(Kind::Cast(*op, *flags, map.label(*a)?)),
        Kind::Cmp(pred, a, b) => Ok(Kind::Cmp(*pred, map.label(*a)?, map.label(*b)?)),
        Kind::Select(c, a, b) => Ok(Kind::Select(map.label(*c)?, map.label(*a)?, map.label(*b)?)),
        Kind::Call(func, passed) => Ok(Kind::Call(*func, map.labels(alloc, passed.as_slice())?)),
        Kind::If(c, first, None) => {
            let first = copy_region(alloc, first, map, names)?;
            Ok(Kind::If(map.label(*c)?, first, None))
        }
        Kind::If(c, first, Some(other)) => {
            let first = copy_region(alloc, first, map, names)?;
            let other = copy_region(alloc, other, map, names)?;
            Ok(Kind::If(map.label(*c)?, first, Some(other)))
        }
        Kind::For(parts) => Ok(Kind::For(copy_for(alloc, parts, map, names)?)),
        Kind::While(parts) => Ok(Kind::While(copy_while(alloc, parts, map, names)?)),
    }
}

/// A copy of an `scf.for`.
#[cycle(copy)]
#[tactic(auto, using(mlir_ir::proofs::PartViews::for_parts))]
fn copy_for(
    alloc: Global,
    parts: &ForParts,
    map: &Renaming,
    names: &mut Names,
) -> Result<ForParts, AllocError>
    ensures parts { IfOk result (λ made. view_for made
        ≡ rename_kind (renamed map.now.spans.items) (naming names.old) names.old.given
        (view_for parts.now)) }
    ensures given { OnOk result (HaveGiven names.old (inner_names (view_for parts.now)) names.new) }
{
    let iv = copy_arg(alloc, &parts.iv, names)?;
    let args = copy_args(alloc, parts.args.as_slice(), names)?;
    let inits = map.labels(alloc, parts.inits.as_slice())?;
    let body = copy_region(alloc, &parts.body, map, names)?;
    Ok(ForParts {
        lower: map.label(parts.lower)?,
        upper: map.label(parts.upper)?,
        step: map.label(parts.step)?,
        iv,
        args,
        inits,
        body,
    })
}

/// An `scf.while` of these parts.
#[tactic(auto, using(mlir_ir::proofs::PartViews::while_parts))]
fn while_of(
    args: List<Arg>,
    inits: List<Label>,
    before: Region,
    cond: Label,
    after_args: List<Arg>,
    after: Region,
) -> WhileParts
    ensures { view_while result ≡ plain.While args inits (rows_of before) (ends_of before) cond
        after_args (rows_of after) (ends_of after) }
{
    WhileParts {
        args,
        inits,
        before,
        cond,
        after_args,
        after,
    }
}

/// A copy of an `scf.while`.
#[cycle(copy)]
#[tactic(auto, using(mlir_ir::proofs::PartViews::while_parts))]
fn copy_while(
    alloc: Global,
    parts: &WhileParts,
    map: &Renaming,
    names: &mut Names,
) -> Result<WhileParts, AllocError>
    ensures parts { IfOk result (λ made. view_while made
        ≡ rename_kind (renamed map.now.spans.items) (naming names.old) names.old.given
        (view_while parts.now)) }
    ensures given { OnOk result (HaveGiven names.old (inner_names
        (view_while parts.now)) names.new) }
{
    let args = copy_args(alloc, parts.args.as_slice(), names)?;
    let inits = map.labels(alloc, parts.inits.as_slice())?;
    let before = copy_region(alloc, &parts.before, map, names)?;
    let after_args = copy_args(alloc, parts.after_args.as_slice(), names)?;
    let after = copy_region(alloc, &parts.after, map, names)?;
    let cond = map.label(parts.cond)?;
    Ok(while_of(args, inits, before, cond, after_args, after))
}

/// A copy of a region.
///
/// # Errors
///
/// Where memory is refused. The same error stands for more than 2^32 names.
#[cycle(copy)]
#[tactic(auto, using(mlir_ir::proofs::PartViews::region_rows, mlir_ir::proofs::PartViews::region_ends))]
pub fn copy_region(
    alloc: Global,
    region: &Region,
    map: &Renaming,
    names: &mut Names,
) -> Result<Region, AllocError>
    ensures ops { IfOk result (λ made. rows_of made
        ≡ rename_ops (renamed map.now.spans.items) (naming names.old) names.old.given
        (rows_of region.now)) }
    ensures ends { IfOk result (λ made. ends_of made
        ≡ relabels (renamed map.now.spans.items) (ends_of region.now)) }
    ensures given { OnOk result (HaveGiven names.old (names_of (rows_of region.now)) names.new) }
{
    let ops = copy_ops(alloc, region.ops.as_slice(), map, names)?;
    let ends = map.labels(alloc, region.ends.as_slice())?;
    Ok(region_of(ops, ends))
}
