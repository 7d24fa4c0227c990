ghost use Rattle.std.specs.Prelude.{ℕ, ◌≡◌, ◌+◌, ◌≤◌, [], false, nat_le, IfOk, IfSome, MatchOption};
ghost use Rattle.mlir_ir.specs.Check.{breaks, IsWellFormed};
ghost use Rattle.mlir_ir.specs.Limits.{label_limit};
ghost use Rattle.mlir_ir.specs.WellFormed.{OnlySize};
ghost use Rattle.mlir_ir.specs.declared.types.Func.{Func};
ghost use Rattle.pass_copy.specs.Built.{fresh_at};
ghost use Rattle.pass_copy.specs.Fresh.{fresh_names};
ghost use Rattle.pass_copy.specs.ItemLabels.{DoesItemFit, item_labels};
ghost use Rattle.pass_copy.specs.Meaning.{HasSameMeaning};
ghost use Rattle.pass_copy.specs.Replaced.{StandsAt, op_labels};
ghost use Rattle.pass_unroll.specs.Built.{loop_of};
ghost use Rattle.pass_unroll.specs.Children.{IsPeeled, IsUnrolled, IsUnrolledFull};
ghost use Rattle.pass_unroll.specs.Copies.{ForLoop, operation_of};
ghost use Rattle.pass_unroll.specs.Limits.{factor_limit, full_limit};
ghost use Rattle.pass_unroll.specs.Planned.{IsPlanned, IsPlannedBy};

use crate::counts::{full_labels, loop_labels, peeled_labels, unrolled_labels};
use crate::full::{full_map, push_full};
use crate::peeled::push_peeled;
use crate::plan::Plan;
use crate::source::{Source, source_at};
use crate::unrolled::{By, push_unrolled};
use arith_word::Label;
use mlir_ir::limits::LABEL_LIMIT;
use mlir_ir::{Func, Kind};
use pass_copy::{Names, Out, found_for, item_labels, replace};
use std::alloc::{AllocError, Global};

/// The loop with that label.
pub fn found_source(f: &Func, target: Label) -> Result<Source<'_>, AllocError>
    requires stands { (o : ForLoop) × StandsAt f.now target.0 (operation_of o) }
    ensures stands { IfOk result
        (λ source. StandsAt f.now target.0 (operation_of (loop_of source))) }
    ensures start { IfOk result (λ source. source.start ≡ target) }
{
    let Some(op) = found_for(f, target)? else {
        unreachable!()
    };
    let Kind::For(parts) = &op.kind else {
        unreachable!()
    };
    Ok(source_at(op, parts, target)?)
}

/// Whether the item of the loop keeps to its labels where operations that take so many stand for
/// the loop.
fn has_room(f: &Func, source: &Source, labels: u64) -> Result<bool, AllocError>
    ensures { IfOk result (λ room. room
        ≡ nat_le (item_labels f.now source.now.start.0 + labels)
        (label_limit + op_labels (operation_of (loop_of source.now)))) }
{
    let now = item_labels(f, source.start)?;
    let room = u128::from(LABEL_LIMIT) + u128::from(loop_labels(source));
    Ok(u128::from(now) + u128::from(labels) <= room)
}

/// Nothing is built yet: the first operation gets that label, and the fresh names of the function.
pub fn begun<'f>(alloc: Global, f: &'f Func, target: Label) -> Result<Out<'f>, AllocError>
    ensures ops { IfOk result (λ out. out.ops.items ≡ []) }
    ensures at { IfOk result (λ out. out.at ≡ target.0) }
    ensures anew { IfOk result (λ out. out.fresh.kept ≡ false) }
    ensures given { IfOk result (λ out. out.fresh.given ≡ 0) }
    ensures names { IfOk result (λ out. fresh_at out ≡ fresh_names f.now) }
{
    Ok(Out {
        ops: Vec::new(alloc),
        at: target.0,
        fresh: Names::fresh(alloc, f)?,
    })
}

/// The function in which the loop with that label is peeled; `None` where the item of the loop
/// would take more labels than an item has.
///
/// # Errors
///
/// Where memory is refused. The same error stands for 2^31 values, and for 2^32 labels or names.
pub fn peel(alloc: Global, f: &Func, target: Label, plan: &Plan) -> Result<Option<Func>, AllocError>
    requires formed { IsWellFormed f.now }
    requires stands { (o : ForLoop) × StandsAt f.now target.0 (operation_of o) }
    ensures child { IfOk result (λ made. MatchOption made
        ((child : Func) → IsPeeled f.now target.0 plan.now child
        → DoesItemFit child target.0 → ⊥)
        (λ child. IsPeeled f.now target.0 plan.now child × DoesItemFit child target.0)) }
    ensures formed { IfOk result (λ made. IfSome made (λ child. OnlySize (breaks child))) }
    ensures meaning { IfOk result (λ made. IfSome made (λ child. 1 ≤ plan.now.count
        → IsPlanned f.now target.0 plan.now → HasSameMeaning f.now child)) }
{
    let source = found_source(f, target)?;
    if !has_room(f, &source, peeled_labels(&source))? {
        return Ok(None);
    }
    let mut out = begun(alloc, f, target)?;
    let map = push_peeled(alloc, &mut out, &source, plan)?;
    let child = replace(alloc, f, &map, target, out.ops.as_slice())?;
    Ok(Some(child))
}

/// The function in which the loop with that label is unrolled in full; `None` where the item of the
/// loop would take more labels than an item has.
///
/// # Errors
///
/// Where memory is refused. The same error stands for 2^31 values, and for 2^32 labels or names.
pub fn unroll_full(
    alloc: Global,
    f: &Func,
    target: Label,
    plan: &Plan,
) -> Result<Option<Func>, AllocError>
    requires formed { IsWellFormed f.now }
    requires stands { (o : ForLoop) × StandsAt f.now target.0 (operation_of o) }
    requires few { plan.now.count ≤ full_limit }
    ensures child { IfOk result (λ made. MatchOption made
        ((child : Func) → IsUnrolledFull f.now target.0 plan.now child
        → DoesItemFit child target.0 → ⊥)
        (λ child. IsUnrolledFull f.now target.0 plan.now child × DoesItemFit child target.0)) }
    ensures formed { IfOk result (λ made. IfSome made (λ child. OnlySize (breaks child))) }
    ensures meaning { IfOk result (λ made. IfSome made (λ child.
        IsPlanned f.now target.0 plan.now → HasSameMeaning f.now child)) }
{
    let source = found_source(f, target)?;
    if !has_room(f, &source, full_labels(&source, plan))? {
        return Ok(None);
    }
    let mut out = begun(alloc, f, target)?;
    let ends = push_full(alloc, &mut out, &source, plan)?;
    let map = full_map(alloc, &source, ends.as_slice(), out.at)?;
    let child = replace(alloc, f, &map, target, out.ops.as_slice())?;
    Ok(Some(child))
}

/// The function in which the loop with that label is unrolled by a factor; `None` where the item of
/// the loop would take more labels than an item has.
///
/// # Errors
///
/// Where memory is refused. The same error stands for 2^31 values, and for 2^32 labels or names.
pub fn unroll(
    alloc: Global,
    f: &Func,
    target: Label,
    factor: u8,
    plan: &Plan,
) -> Result<Option<Func>, AllocError>
    requires formed { IsWellFormed f.now }
    requires stands { (o : ForLoop) × StandsAt f.now target.0 (operation_of o) }
    requires some { 1 ≤ factor }
    requires few { factor ≤ factor_limit }
    ensures child { IfOk result (λ made. MatchOption made
        ((child : Func) → IsUnrolled f.now target.0 factor plan.now child
        → DoesItemFit child target.0 → ⊥)
        (λ child. IsUnrolled f.now target.0 factor plan.now child × DoesItemFit child target.0)) }
    ensures formed { IfOk result (λ made. IfSome made (λ child. OnlySize (breaks child))) }
    ensures meaning { IfOk result (λ made. IfSome made (λ child.
        IsPlannedBy f.now target.0 factor plan.now → HasSameMeaning f.now child)) }
{
    let source = found_source(f, target)?;
    let by = By { plan, factor };
    if !has_room(f, &source, unrolled_labels(&source, &by))? {
        return Ok(None);
    }
    let mut out = begun(alloc, f, target)?;
    let map = push_unrolled(alloc, &mut out, &source, by)?;
    let child = replace(alloc, f, &map, target, out.ops.as_slice())?;
    Ok(Some(child))
}
