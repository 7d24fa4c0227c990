ghost use Rattle.std.specs.Prelude.{◌≡◌, [], ◌∷◌, ◌+◌, ◌<◌, ◌≤◌, ◌^◌, ◌++◌, length, IfOk, OnOk};
ghost use Rattle.std.specs.List.{All};
ghost use Rattle.mlir_ir.specs.Labels.{kind_labels, ops_labels, region_labels, for_labels, while_labels};
ghost use Rattle.mlir_ir.specs.Limits.{item_limit};
ghost use Rattle.mlir_ir.specs.Loops.{loop_at, kind_loops, ops_loops, region_loops, for_loops, while_loops, items_loops, func_loops, HasFewItems};
ghost use Rattle.mlir_ir.specs.Places.{DoLabelsFit, HasFewLabels};

use crate::types::{ForParts, Func, Item, Kind, Op, Region, WhileParts};
use arith_word::{Label, List};
use std::alloc::{AllocError, Global};

/// The labels of a loop: that of its counter, which is the first of the loop's operation, and the one
/// behind its inside, which its first result has where it has any.
#[derive(Clone, Copy, Debug, PartialEq, Eq)]
pub struct LoopLabels {
    pub counter: Label,
    pub behind: Label,
}

/// Adds the loops inside an operation that begins with a label. Returns the label behind them.
#[cycle(loops)]
fn push_kind(out: &mut Vec<LoopLabels>, at: u32, kind: &Kind) -> Result<u32, AllocError>
    requires { at + kind_labels kind.now < 2 ^ 32 }
    ensures loops { OnOk result (out.new.items ≡ out.old.items ++ kind_loops at kind.now) }
    ensures behind { IfOk result (λ behind. behind ≡ at + kind_labels kind.now) }
{
    match kind {
        Kind::If(_, first, None) => Ok(push_region(out, at, first)?),
        Kind::If(_, first, Some(other)) => {
            let behind = push_region(out, at, first)?;
            Ok(push_region(out, behind, other)?)
        }
        Kind::For(parts) => Ok(push_for(out, at, parts)?),
        Kind::While(parts) => Ok(push_while(out, at, parts)?),
        _ => Ok(at),
    }
}

/// Adds a loop of which the inside isn't walked yet. Returns its place.
fn push_counter(out: &mut Vec<LoopLabels>, at: u32) -> Result<usize, AllocError>
    ensures added { OnOk result (out.new.items ≡ out.old.items ++ loop_at at 0 ∷ []) }
    ensures place { IfOk result (λ place. place ≡ length out.old.items) }
{
    let place = out.len();
    out.push(LoopLabels {
        counter: Label(at),
        behind: Label(at),
    })?;
    Ok(place)
}

#[cycle(loops)]
fn push_for(out: &mut Vec<LoopLabels>, at: u32, parts: &ForParts) -> Result<u32, AllocError>
    requires { at + for_labels parts.now < 2 ^ 32 }
    ensures loops { OnOk result (out.new.items ≡ out.old.items ++ for_loops at parts.now) }
    ensures behind { IfOk result (λ behind. behind ≡ at + for_labels parts.now) }
{
    let place = push_counter(out, at)?;
    let in_body = at + 2 + parts.args.as_slice().len() as u32;
    let behind = push_region(out, in_body, &parts.body)?;
    out[place] = LoopLabels {
        counter: Label(at),
        behind: Label(behind),
    };
    Ok(behind)
}

#[cycle(loops)]
fn push_while(out: &mut Vec<LoopLabels>, at: u32, parts: &WhileParts) -> Result<u32, AllocError>
    requires { at + while_labels parts.now < 2 ^ 32 }
    ensures loops { OnOk result (out.new.items ≡ out.old.items ++ while_loops at parts.now) }
    ensures behind { IfOk result (λ behind. behind ≡ at + while_labels parts.now) }
{
    let place = push_counter(out, at)?;
    let in_before = at + 1 + parts.args.as_slice().len() as u32;
    let behind = push_region(out, in_before, &parts.before)?;
    let in_after = behind + parts.after_args.as_slice().len() as u32;
    let behind = push_region(out, in_after, &parts.after)?;
    out[place] = LoopLabels {
        counter: Label(at),
        behind: Label(behind),
    };
    Ok(behind)
}

#[cycle(loops)]
#[tactic(auto, using(crate::proofs::LoopOrder::region_loops_items, crate::proofs::RegionItems::region_labels_items))]
fn push_region(out: &mut Vec<LoopLabels>, at: u32, region: &Region) -> Result<u32, AllocError>
    requires { at + region_labels region.now < 2 ^ 32 }
    ensures loops { OnOk result (out.new.items ≡ out.old.items ++ region_loops at region.now) }
    ensures behind { IfOk result (λ behind. behind ≡ at + region_labels region.now) }
{
    Ok(push_ops(out, at, region.ops.as_slice())?)
}

/// Adds the loops of operations of which the first begins with a label. Returns the label behind them.
#[cycle(loops)]
fn push_ops(out: &mut Vec<LoopLabels>, at: u32, ops: &[Op]) -> Result<u32, AllocError>
    requires { at + ops_labels ops.now < 2 ^ 32 }
    ensures loops { OnOk result (out.new.items ≡ out.old.items ++ ops_loops at ops.now) }
    ensures behind { IfOk result (λ behind. behind ≡ at + ops_labels ops.now) }
{
    let mut at = at;
    for op in ops {
        let behind = push_kind(out, at, &op.kind)?;
        at = behind + op.results.as_slice().len() as u32;
    }
    Ok(at)
}

/// Adds the loops of the items of the function at that place.
fn push_items(out: &mut Vec<LoopLabels>, func: u8, items: &[Item]) -> Result<(), AllocError>
    requires few { length items.now ≤ item_limit }
    requires fit { All HasFewLabels items.now }
    ensures { OnOk result (out.new.items ≡ out.old.items ++ items_loops func 1 items.now) }
{
    for (k, item) in items.iter().enumerate() {
        let at = Label::new(func, k + 1, 0).0;
        push_ops(out, at, item.ops.as_slice())?;
    }
    Ok(())
}

/// The function's loops in the order of the text.
/// Loop number k of the function is the one at place k.
pub fn loops(alloc: Global, func: &Func) -> Result<List<LoopLabels>, AllocError>
    requires few { HasFewItems func.now }
    requires fit { DoLabelsFit func.now }
    ensures { IfOk result (λ loops. loops ≡ func_loops func.now) }
{
    let mut out = Vec::new(alloc);
    if let Some(body) = &func.body {
        push_items(&mut out, func.index, body.items.as_slice())?;
    }
    Ok(List::from_vec(out))
}
