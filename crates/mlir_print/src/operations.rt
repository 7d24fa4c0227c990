ghost use Rattle.std.specs.Prelude.{◌≡◌, ℕ, List, ◌+◌, ◌*◌, ◌++◌, replicate, OnOk, string_bytes};
ghost use Rattle.mlir_ir.specs.Canonical.{after_text, before_text, for_text, op_text, packs_text, region_text, while_text};
ghost use Rattle.mlir_print.specs.Lines.{depth_of, ops_lines};

use crate::depth::{Depth, push_blanks, push_line};
use crate::heads::{
    push_block, push_condition, push_end, push_for_head, push_if_head, push_while_head, push_yield,
};
use crate::lists::push_packs;
use crate::naming::Names;
use crate::simple::push_simple;
use arith_word::Label;
use mlir_ir::{ForParts, IrType, Kind, Op, Region, WhileParts};
use std::alloc::AllocError;

/// Adds the lines of operations.
#[cycle(print)]
#[tactic(auto, using(crate::proofs::Nested::ops_more))]
pub(crate) fn push_ops<'x>(
    out: &mut String,
    names: &Names<'_>,
    depth: &'x Depth<'x>,
    ops: &[Op],
) -> Result<(), AllocError>
    ensures { OnOk result
        (string_bytes out.new ≡ string_bytes out.old
        ++ ops_lines names.now (depth_of depth.now) ops.now) }
{
    for op in ops {
        push_op(out, names, depth, op)?;
    }
    Ok(())
}

/// Adds the lines of an operation.
#[cycle(print)]
fn push_op<'x>(
    out: &mut String,
    names: &Names<'_>,
    depth: &'x Depth<'x>,
    op: &Op,
) -> Result<(), AllocError>
    ensures { OnOk result
        (string_bytes out.new ≡ string_bytes out.old
        ++ op_text names.now (depth_of depth.now)
        (packs_text op.now.packs) op.now.results op.now.kind) }
{
    push_blanks(out, depth)?;
    push_packs(out, op.packs.as_slice())?;
    push_kind(out, names, depth, op.results.as_slice(), &op.kind)?;
    Ok(())
}

/// Adds the lines of an operation behind the blanks and the names of its results.
#[cycle(print)]
fn push_kind<'x>(
    out: &mut String,
    names: &Names<'_>,
    depth: &'x Depth<'x>,
    results: &[IrType],
    kind: &Kind,
) -> Result<(), AllocError>
    ensures { OnOk result
        ((front packs : List ℕ) → string_bytes out.old ≡ front
        ++ replicate (2 * depth_of depth.now) 32 ++ packs → string_bytes out.new ≡ front
        ++ op_text names.now (depth_of depth.now) packs results.now kind.now) }
{
    match kind {
        Kind::If(c, first, other) => {
            push_if_head(out, names, results, *c)?;
            push_arm(out, names, depth, first)?;
            match other {
                None => push_line(out, depth, "}")?,
                Some(region) => {
                    push_line(out, depth, "} else {")?;
                    push_arm(out, names, depth, region)?;
                    push_line(out, depth, "}")?;
                }
            }
        }
        Kind::For(parts) => push_for(out, names, depth, results, parts)?,
        Kind::While(parts) => push_while(out, names, depth, results, parts)?,
        _ => {
            push_simple(out, names, results, kind)?;
            writeln!(out)?;
        }
    }
    Ok(())
}

/// Adds the lines of a region one step deeper, and its yield where it gives values.
#[cycle(print)]
fn push_arm<'x>(
    out: &mut String,
    names: &Names<'_>,
    depth: &'x Depth<'x>,
    region: &Region,
) -> Result<(), AllocError>
    ensures { OnOk result
        (string_bytes out.new ≡ string_bytes out.old
        ++ region_text names.now (depth_of depth.now + 1) region.now) }
{
    let inside = Depth::Inside(&*depth);
    push_ops(out, names, &inside, region.ops.as_slice())?;
    push_yield(out, names, &inside, region.ends.as_slice())?;
    Ok(())
}

#[cycle(print)]
fn push_for<'x>(
    out: &mut String,
    names: &Names<'_>,
    depth: &'x Depth<'x>,
    results: &[IrType],
    parts: &ForParts,
) -> Result<(), AllocError>
    ensures { OnOk result
        ((front packs : List ℕ) → string_bytes out.old ≡ front
        ++ replicate (2 * depth_of depth.now) 32 ++ packs → string_bytes out.new ≡ front
        ++ for_text names.now (depth_of depth.now) packs results.now parts.now) }
{
    push_for_head(out, names, results, parts)?;
    push_arm(out, names, depth, &parts.body)?;
    push_line(out, depth, "}")?;
    Ok(())
}

#[cycle(print)]
fn push_while<'x>(
    out: &mut String,
    names: &Names<'_>,
    depth: &'x Depth<'x>,
    results: &[IrType],
    parts: &WhileParts,
) -> Result<(), AllocError>
    ensures { OnOk result
        ((front packs : List ℕ) → string_bytes out.old ≡ front
        ++ replicate (2 * depth_of depth.now) 32 ++ packs → string_bytes out.new ≡ front
        ++ while_text names.now (depth_of depth.now) packs results.now parts.now) }
{
    push_while_head(out, names, results, parts)?;
    push_before(out, names, depth, parts.cond, &parts.before)?;
    push_line(out, depth, "} do {")?;
    push_block(out, depth, parts.after_args.as_slice())?;
    push_after(out, names, depth, &parts.after)?;
    push_line(out, depth, "}")?;
    Ok(())
}

/// Adds the lines of the region before a turn one step deeper, with its condition.
#[cycle(print)]
fn push_before<'x>(
    out: &mut String,
    names: &Names<'_>,
    depth: &'x Depth<'x>,
    cond: Label,
    region: &Region,
) -> Result<(), AllocError>
    ensures { OnOk result
        (string_bytes out.new ≡ string_bytes out.old
        ++ before_text names.now (depth_of depth.now + 1) cond region.now) }
{
    let inside = Depth::Inside(&*depth);
    push_ops(out, names, &inside, region.ops.as_slice())?;
    push_condition(out, names, &inside, cond, region.ends.as_slice())?;
    Ok(())
}

/// Adds the lines of the region of a turn one step deeper, with its yield.
#[cycle(print)]
fn push_after<'x>(
    out: &mut String,
    names: &Names<'_>,
    depth: &'x Depth<'x>,
    region: &Region,
) -> Result<(), AllocError>
    ensures { OnOk result
        (string_bytes out.new ≡ string_bytes out.old
        ++ after_text names.now (depth_of depth.now + 1) region.now) }
{
    let inside = Depth::Inside(&*depth);
    push_ops(out, names, &inside, region.ops.as_slice())?;
    push_end(out, names, &inside, "scf.yield", region.ends.as_slice())?;
    Ok(())
}
