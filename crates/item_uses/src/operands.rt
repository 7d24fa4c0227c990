ghost use Rattle.std.specs.Prelude.{◌≡◌, [], ◌∷◌, ◌++◌, IfOk, OnOk};
ghost use Rattle.item_uses.specs.Marks.{region_uses};
ghost use Rattle.mlir_ir.specs.Typed as typed;
ghost use Rattle.mlir_ir.specs.View.{view_kind, view_for, view_while, view_ops};
ghost use Rattle.item_uses.specs.Uses.{inner_uses, ops_uses};

use arith_word::{Label, List};
use mlir_ir::{ForParts, Item, Kind, Op, Region, WhileParts};
use std::alloc::{AllocError, Global};

/// Adds the operands of an operation, besides those in its regions.
fn push_own(out: &mut Vec<Label>, kind: &Kind) -> Result<(), AllocError>
    ensures { OnOk result (out.new.items ≡ out.old.items ++ typed.uses (view_kind kind.now)) }
{
    match kind {
        Kind::Const(_) => Ok(()),
        Kind::Bin(_, _, a, b) => out.extend_from_slice(&[*a, *b]),
        Kind::Cast(_, _, a) => out.extend_from_slice(&[*a]),
        Kind::Cmp(_, a, b) => out.extend_from_slice(&[*a, *b]),
        Kind::Select(c, a, b) => out.extend_from_slice(&[*c, *a, *b]),
        Kind::Call(_, passed) => out.extend_from_slice(passed.as_slice()),
        Kind::If(c, _, _) => out.extend_from_slice(&[*c]),
        Kind::For(parts) => {
            out.extend_from_slice(&[parts.lower, parts.upper, parts.step])?;
            out.extend_from_slice(parts.inits.as_slice())
        }
        Kind::While(parts) => out.extend_from_slice(parts.inits.as_slice()),
    }
}

/// Adds the operands in the regions of an operation.
#[cycle(operands)]
fn push_inner(out: &mut Vec<Label>, kind: &Kind) -> Result<(), AllocError>
    ensures { OnOk result (out.new.items ≡ out.old.items ++ inner_uses (view_kind kind.now)) }
{
    match kind {
        Kind::If(_, first, None) => Ok(push_region(out, first)?),
        Kind::If(_, first, Some(other)) => {
            push_region(out, first)?;
            Ok(push_region(out, other)?)
        }
        Kind::For(parts) => Ok(push_for(out, parts)?),
        Kind::While(parts) => Ok(push_while(out, parts)?),
        _ => Ok(()),
    }
}

/// Adds the operands in the body of a loop.
#[cycle(operands)]
#[tactic(auto, using(crate::proofs::RegionUses::for_inner))]
fn push_for(out: &mut Vec<Label>, parts: &ForParts) -> Result<(), AllocError>
    ensures { OnOk result (out.new.items ≡ out.old.items ++ inner_uses (view_for parts.now)) }
{
    Ok(push_region(out, &parts.body)?)
}

/// Adds the operands in both regions of a loop, and its condition.
#[cycle(operands)]
#[tactic(auto, using(crate::proofs::RegionUses::while_inner))]
fn push_while(out: &mut Vec<Label>, parts: &WhileParts) -> Result<(), AllocError>
    ensures { OnOk result (out.new.items ≡ out.old.items ++ inner_uses (view_while parts.now)) }
{
    push_ops(out, parts.before.ops.as_slice())?;
    out.push(parts.cond)?;
    out.extend_from_slice(parts.before.ends.as_slice())?;
    Ok(push_region(out, &parts.after)?)
}

/// Adds the operands of a region, and the values that its terminator gives on.
#[cycle(operands)]
#[tactic(auto, using(crate::proofs::RegionUses::region_inner))]
fn push_region(out: &mut Vec<Label>, region: &Region) -> Result<(), AllocError>
    ensures { OnOk result (out.new.items ≡ out.old.items ++ region_uses region.now) }
{
    push_ops(out, region.ops.as_slice())?;
    Ok(out.extend_from_slice(region.ends.as_slice())?)
}

/// Adds the operands of operations, in their regions too.
#[cycle(operands)]
fn push_ops(out: &mut Vec<Label>, ops: &[Op]) -> Result<(), AllocError>
    ensures { OnOk result (out.new.items ≡ out.old.items ++ ops_uses (view_ops ops.now)) }
{
    for op in ops {
        push_own(out, &op.kind)?;
        push_inner(out, &op.kind)?;
    }
    Ok(())
}

/// The operands of an item in the order of the text, in its regions too, with those of terminators.
pub fn item_operands(alloc: Global, item: &Item) -> Result<List<Label>, AllocError>
    ensures { IfOk result (λ labels. labels ≡ ops_uses (view_ops item.now.ops)) }
{
    let mut out = Vec::new(alloc);
    push_ops(&mut out, item.ops.as_slice())?;
    Ok(List::from_vec(out))
}
