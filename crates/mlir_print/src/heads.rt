ghost use Rattle.std.specs.Prelude.{◌≡◌, ◌++◌, codes, OnOk, string_bytes};
ghost use Rattle.mlir_ir.specs.Canonical.{block_text, bracketed, carried_text, counter_type, ends_text, line, use_text, while_inits, yield_text};
ghost use Rattle.mlir_print.specs.Lines.{depth_of, for_head, if_head, while_head};

use crate::depth::{Depth, push_blanks};
use crate::lists::{push_arg_types, push_args, push_arrow_list, push_bracketed};
use crate::naming::Names;
use crate::uses::{push_ends, push_inits, push_use};
use arith_word::Label;
use mlir_ir::{Arg, ForParts, IrType, WhileParts};
use std::alloc::AllocError;

pub(crate) fn push_if_head(
    out: &mut String,
    names: &Names<'_>,
    results: &[IrType],
    c: Label,
) -> Result<(), AllocError>
    ensures { OnOk result
        (string_bytes out.new ≡ string_bytes out.old ++ if_head names.now results.now c) }
{
    write!(out, "scf.if ")?;
    push_use(out, names, c)?;
    push_arrow_list(out, results)?;
    writeln!(out, " {{")
}

/// Adds the arguments that a loop carries with their first values and types, where there are some.
fn push_carried(
    out: &mut String,
    names: &Names<'_>,
    args: &[Arg],
    inits: &[Label],
    results: &[IrType],
) -> Result<(), AllocError>
    ensures { OnOk result
        (string_bytes out.new ≡ string_bytes out.old
        ++ carried_text names.now args.now inits.now results.now) }
{
    if args.is_empty() {
        return Ok(());
    }
    write!(out, " iter_args")?;
    push_inits(out, names, args, inits)?;
    write!(out, " -> ")?;
    push_bracketed(out, results)
}

/// Adds the type of an induction variable, where it isn't `index`.
fn push_counter_type(out: &mut String, ty: IrType) -> Result<(), AllocError>
    ensures { OnOk result (string_bytes out.new ≡ string_bytes out.old ++ counter_type ty) }
{
    match ty {
        IrType::Int(width) => {
            let bits = width.bits();
            write!(out, " : i{bits}")
        }
        IrType::Index => Ok(()),
    }
}

/// Adds the bounds and the step of a `scf.for`.
fn push_bounds(
    out: &mut String,
    names: &Names<'_>,
    lower: Label,
    upper: Label,
    step: Label,
) -> Result<(), AllocError>
    ensures { OnOk result
        (string_bytes out.new ≡ string_bytes out.old
        ++ (use_text names.now lower ++ codes " to " ++ use_text names.now upper ++ codes " step "
        ++ use_text names.now step)) }
{
    push_use(out, names, lower)?;
    write!(out, " to ")?;
    push_use(out, names, upper)?;
    write!(out, " step ")?;
    push_use(out, names, step)
}

pub(crate) fn push_for_head(
    out: &mut String,
    names: &Names<'_>,
    results: &[IrType],
    parts: &ForParts,
) -> Result<(), AllocError>
    ensures { OnOk result
        (string_bytes out.new ≡ string_bytes out.old ++ for_head names.now results.now parts.now) }
{
    let iv = &parts.iv.name;
    write!(out, "scf.for %{iv} = ")?;
    push_bounds(out, names, parts.lower, parts.upper, parts.step)?;
    push_carried(
        out,
        names,
        parts.args.as_slice(),
        parts.inits.as_slice(),
        results,
    )?;
    push_counter_type(out, parts.iv.ty)?;
    writeln!(out, " {{")?;
    Ok(())
}

/// Adds the arguments of a `scf.while` with their first values, where there are some.
fn push_while_inits(
    out: &mut String,
    names: &Names<'_>,
    args: &[Arg],
    inits: &[Label],
) -> Result<(), AllocError>
    ensures { OnOk result
        (string_bytes out.new ≡ string_bytes out.old ++ while_inits names.now args.now inits.now) }
{
    if args.is_empty() {
        return Ok(());
    }
    push_inits(out, names, args, inits)?;
    write!(out, " ")
}

#[tactic(auto, using(crate::proofs::FirstLines::while_head_parts))]
pub(crate) fn push_while_head(
    out: &mut String,
    names: &Names<'_>,
    results: &[IrType],
    parts: &WhileParts,
) -> Result<(), AllocError>
    ensures { OnOk result
        (string_bytes out.new ≡ string_bytes out.old
        ++ while_head names.now results.now parts.now) }
{
    write!(out, "scf.while ")?;
    push_while_inits(out, names, parts.args.as_slice(), parts.inits.as_slice())?;
    write!(out, ": (")?;
    push_arg_types(out, parts.args.as_slice())?;
    write!(out, ") -> ")?;
    push_bracketed(out, results)?;
    writeln!(out, " {{")
}

/// Adds the line that opens the `do` region's block, where it has parameters.
pub(crate) fn push_block(
    out: &mut String,
    depth: &Depth<'_>,
    args: &[Arg],
) -> Result<(), AllocError>
    ensures { OnOk result
        (string_bytes out.new ≡ string_bytes out.old ++ block_text (depth_of depth.now) args.now) }
{
    if args.is_empty() {
        return Ok(());
    }
    push_blanks(out, depth)?;
    write!(out, "^bb0")?;
    push_args(out, args)?;
    writeln!(out, ":")
}

/// Adds a line of a terminator with values.
pub(crate) fn push_end(
    out: &mut String,
    names: &Names<'_>,
    depth: &Depth<'_>,
    word: &str,
    ends: &[Label],
) -> Result<(), AllocError>
    ensures { OnOk result
        (string_bytes out.new ≡ string_bytes out.old
        ++ line (depth_of depth.now) (word.now ++ ends_text names.now ends.now)) }
{
    push_blanks(out, depth)?;
    write!(out, "{word}")?;
    push_ends(out, names, ends)?;
    writeln!(out)
}

/// Adds the line of `scf.condition`.
pub(crate) fn push_condition(
    out: &mut String,
    names: &Names<'_>,
    depth: &Depth<'_>,
    cond: Label,
    ends: &[Label],
) -> Result<(), AllocError>
    ensures { OnOk result
        (string_bytes out.new ≡ string_bytes out.old
        ++ line (depth_of depth.now)
        (codes "scf.condition" ++ bracketed (use_text names.now cond)
        ++ ends_text names.now ends.now)) }
{
    push_blanks(out, depth)?;
    write!(out, "scf.condition(")?;
    push_use(out, names, cond)?;
    write!(out, ")")?;
    push_ends(out, names, ends)?;
    writeln!(out)
}

/// Adds the yield of a region, where it gives values.
pub(crate) fn push_yield(
    out: &mut String,
    names: &Names<'_>,
    depth: &Depth<'_>,
    ends: &[Label],
) -> Result<(), AllocError>
    ensures { OnOk result
        (string_bytes out.new ≡ string_bytes out.old
        ++ yield_text names.now (depth_of depth.now) ends.now) }
{
    if ends.is_empty() {
        return Ok(());
    }
    push_end(out, names, depth, "scf.yield", ends)
}
