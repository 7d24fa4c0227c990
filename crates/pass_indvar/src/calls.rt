ghost use Rattle.std.specs.Prelude.{◌≡◌, ◌+◌, nat_le, IfOk};
ghost use Rattle.mlir_ir.specs.Check.{breaks, IsWellFormed};
ghost use Rattle.mlir_ir.specs.Limits.{label_limit};
ghost use Rattle.mlir_ir.specs.WellFormed.{OnlySize};
ghost use Rattle.pass_copy.specs.ItemLabels as items;
ghost use Rattle.pass_copy.specs.Meaning.{HasSameMeaning};
ghost use Rattle.pass_copy.specs.Replaced.{Operation, StandsAt};
ghost use Rattle.pass_indvar.specs.Entries.{entries};
ghost use Rattle.pass_indvar.specs.Exits.{DoExitsHold};
ghost use Rattle.pass_indvar.specs.Made.{IfChild, IsExitMade, IsReductionMade};
ghost use Rattle.pass_indvar.specs.Reductions.{DoesProgressionHold};
ghost use Rattle.pass_unroll.specs.Copies.{ForLoop, operation_of};

use crate::exits::{chosen, own_labels, push_exits, push_loop};
use crate::made::Made;
use crate::progressions::growth_in;
use crate::reductions::push_reduced;
use arith_word::Label;
use mlir_ir::Func;
use mlir_ir::limits::LABEL_LIMIT;
use pass_copy::{Renaming, found_loop, item_labels, labels_in, moved, replace};
use pass_unroll::{begun, found_source};
use scev_tree::Expr;
use std::alloc::{AllocError, Global};

/// Whether the item of a loop that takes so many labels of its own keeps to its labels where
/// operations that take so many stand for the loop.
fn has_room(f: &Func, target: Label, own: u32, labels: u32) -> Result<bool, AllocError>
    ensures { IfOk result (λ room. room
        ≡ nat_le (items.item_labels f.now target.0 + labels) (label_limit + own)) }
{
    let now = item_labels(f, target)?;
    Ok(u64::from(now) + u64::from(labels) <= u64::from(LABEL_LIMIT) + u64::from(own))
}

/// The function in which results of the loop with that label get their values from operations
/// behind it: those that are used, and whose expressions need values alone that are in scope where
/// the loop begins, of the results' types. An entry stands for each result, in order; `None` where
/// a result has no expression.
///
/// # Errors
///
/// Where memory is refused. The same error stands for 2^31 values, and for 2^32 labels or names.
pub fn exit_values(
    alloc: Global,
    f: &Func,
    target: Label,
    exprs: &[Option<Expr>],
) -> Result<Made, AllocError>
    requires formed { IsWellFormed f.now }
    requires stands { (o : Operation) × StandsAt f.now target.0 o }
    ensures child { IfOk result (λ made. IsExitMade f.now target.0 (entries exprs.now) made) }
    ensures formed { IfOk result (λ made. IfChild made (λ child. OnlySize (breaks child))) }
    ensures meaning { IfOk result (λ made. IfChild made (λ child.
        DoExitsHold f.now target.0 (entries exprs.now) → HasSameMeaning f.now child)) }
{
    let Some(op) = found_loop(f, target)? else {
        unreachable!()
    };
    let found = chosen(alloc, f, target, op, exprs)?;
    if found.as_slice().is_empty() {
        return Ok(Made::NothingToDo);
    }
    let mut out = begun(alloc, f, target)?;
    push_loop(alloc, &mut out, op)?;
    let behind = out.at;
    let mut spans = Vec::new(alloc);
    push_exits(alloc, &mut out, &mut spans, found.as_slice())?;
    spans.push(moved(behind, out.at))?;
    let own = own_labels(op)?;
    if !has_room(f, target, own, out.at - target.0)? {
        return Ok(Made::TooManyLabels);
    }
    let map = Renaming { spans };
    let child = replace(alloc, f, &map, target, out.ops.as_slice())?;
    Ok(Made::Child(child))
}

/// The function in which an addition in each iteration of the `scf.for` with that label stands for
/// a product: the first directly in its body whose expression is `{a,+,b}` over the loop's counter
/// alone, where a and b need values alone that are in scope where the loop begins, of the product's
/// type. An entry stands for each product, in order; `None` where one has no expression.
///
/// # Errors
///
/// Where memory is refused. The same error stands for 2^31 values, and for 2^32 labels or names.
pub fn reduce(
    alloc: Global,
    f: &Func,
    target: Label,
    exprs: &[Option<Expr>],
) -> Result<Made, AllocError>
    requires formed { IsWellFormed f.now }
    requires stands { (o : ForLoop) × StandsAt f.now target.0 (operation_of o) }
    ensures child { IfOk result (λ made. IsReductionMade f.now target.0 (entries exprs.now) made) }
    ensures formed { IfOk result (λ made. IfChild made (λ child. OnlySize (breaks child))) }
    ensures meaning { IfOk result (λ made. IfChild made (λ child.
        DoesProgressionHold f.now target.0 (entries exprs.now) → HasSameMeaning f.now child)) }
{
    let source = found_source(f, target)?;
    let Some(g) = growth_in(alloc, f, &source, exprs)? else {
        return Ok(Made::NothingToDo);
    };
    let mut out = begun(alloc, f, target)?;
    let map = push_reduced(alloc, &mut out, &source, &g)?;
    let labels = labels_in(out.ops.as_slice())?;
    if !has_room(f, target, source.end - source.start.0, labels)? {
        return Ok(Made::TooManyLabels);
    }
    let child = replace(alloc, f, &map, target, out.ops.as_slice())?;
    Ok(Made::Child(child))
}
