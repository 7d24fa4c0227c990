ghost use Rattle.std.specs.Prelude.{◌≡◌, ◌++◌, [], codes, OnOk, slice_index_or, string_bytes};
ghost use Rattle.mlir_ir.specs.Canonical.{bracketed, simple_text, types_text, use_text, used_types, uses_text};
ghost use Rattle.mlir_ir.specs.Words.{bin_text};

use crate::constant::push_constant;
use crate::lists::{push_results, push_types};
use crate::naming::Names;
use crate::uses::{push_use, push_used_type, push_used_types, push_uses};
use crate::words::{bin_word, cast_word, flags_word, pred_word};
use arith_word::{BinOp, CastOp, Label, Pred};
use mlir_ir::{Flags, IrType, Kind};
use std::alloc::AllocError;

/// Adds two used values, parted by a comma and a blank.
fn push_pair(out: &mut String, names: &Names<'_>, a: Label, b: Label) -> Result<(), AllocError>
    ensures { OnOk result
        (string_bytes out.new ≡ string_bytes out.old
        ++ (use_text names.now a ++ codes ", " ++ use_text names.now b)) }
{
    push_use(out, names, a)?;
    write!(out, ", ")?;
    push_use(out, names, b)
}

/// Adds flags and the types of results.
fn push_typed(out: &mut String, flags: &str, results: &[IrType]) -> Result<(), AllocError>
    ensures { OnOk result
        (string_bytes out.new ≡ string_bytes out.old
        ++ (flags.now ++ codes " : " ++ types_text results.now)) }
{
    write!(out, "{flags} : ")?;
    push_types(out, results)
}

fn push_bin(
    out: &mut String,
    names: &Names<'_>,
    op: BinOp,
    a: Label,
    b: Label,
) -> Result<(), AllocError>
    ensures { OnOk result
        (string_bytes out.new ≡ string_bytes out.old
        ++ (bin_text op ++ codes " " ++ use_text names.now a ++ codes ", "
        ++ use_text names.now b)) }
{
    let word = bin_word(op);
    write!(out, "{word} ")?;
    push_pair(out, names, a, b)
}

fn push_cast(
    out: &mut String,
    names: &Names<'_>,
    results: &[IrType],
    op: CastOp,
    flags: Flags,
    a: Label,
) -> Result<(), AllocError>
    ensures { OnOk result
        (string_bytes out.new ≡ string_bytes out.old
        ++ simple_text names.now results.now (Kind.Cast op flags a)) }
{
    let word = cast_word(op);
    write!(out, "{word} ")?;
    push_use(out, names, a)?;
    let flags = flags_word(flags);
    write!(out, "{flags} : ")?;
    push_used_type(out, names, a)?;
    write!(out, " to ")?;
    push_types(out, results)
}

fn push_cmp(
    out: &mut String,
    names: &Names<'_>,
    pred: Pred,
    a: Label,
    b: Label,
) -> Result<(), AllocError>
    ensures { OnOk result
        (string_bytes out.new ≡ string_bytes out.old
        ++ simple_text names.now [] (Kind.Cmp pred a b)) }
{
    let word = pred_word(pred);
    write!(out, "arith.cmpi {word}, ")?;
    push_pair(out, names, a, b)?;
    write!(out, " : ")?;
    push_used_type(out, names, a)?;
    Ok(())
}

fn push_select(
    out: &mut String,
    names: &Names<'_>,
    results: &[IrType],
    c: Label,
    a: Label,
    b: Label,
) -> Result<(), AllocError>
    ensures { OnOk result
        (string_bytes out.new ≡ string_bytes out.old
        ++ simple_text names.now results.now (Kind.Select c a b)) }
{
    write!(out, "arith.select ")?;
    push_use(out, names, c)?;
    write!(out, ", ")?;
    push_pair(out, names, a, b)?;
    push_typed(out, "", results)?;
    Ok(())
}

/// Adds the name of the function with that index.
#[tactic(auto, using(crate::proofs::Texts::func_name, crate::proofs::Texts::no_func_name))]
fn push_callee(out: &mut String, names: &Names<'_>, func: u16) -> Result<(), AllocError>
    ensures { OnOk result
        (string_bytes out.new ≡ string_bytes out.old ++ slice_index_or names.now.funcs func []) }
{
    let funcs = names.funcs();
    let at = func as usize;
    if at < funcs.len() {
        let name = &funcs[at].name;
        write!(out, "{name}")?;
    }
    Ok(())
}

/// Adds the values that a call passes, with their types.
fn push_passed(out: &mut String, names: &Names<'_>, uses: &[Label]) -> Result<(), AllocError>
    ensures { OnOk result
        (string_bytes out.new ≡ string_bytes out.old
        ++ (bracketed (uses_text names.now uses.now) ++ codes " : "
        ++ bracketed (used_types names.now uses.now))) }
{
    write!(out, "(")?;
    push_uses(out, names, uses)?;
    write!(out, ") : (")?;
    push_used_types(out, names, uses)?;
    write!(out, ")")
}

fn push_call(
    out: &mut String,
    names: &Names<'_>,
    results: &[IrType],
    func: u16,
    uses: &[Label],
) -> Result<(), AllocError>
    ensures { OnOk result
        (string_bytes out.new ≡ string_bytes out.old
        ++ simple_text names.now results.now (Kind.Call func uses.now)) }
{
    write!(out, "func.call @")?;
    push_callee(out, names, func)?;
    push_passed(out, names, uses)?;
    write!(out, " -> ")?;
    push_results(out, results)?;
    Ok(())
}

/// Adds what an operation without regions says behind the names of its results.
pub(crate) fn push_simple(
    out: &mut String,
    names: &Names<'_>,
    results: &[IrType],
    kind: &Kind,
) -> Result<(), AllocError>
    ensures { OnOk result
        (string_bytes out.new ≡ string_bytes out.old
        ++ simple_text names.now results.now kind.now) }
{
    match kind {
        Kind::Const(v) => push_constant(out, results, *v),
        Kind::Bin(op, flags, a, b) => {
            push_bin(out, names, *op, *a, *b)?;
            push_typed(out, flags_word(*flags), results)
        }
        Kind::Cast(op, flags, a) => push_cast(out, names, results, *op, *flags, *a),
        Kind::Cmp(pred, a, b) => push_cmp(out, names, *pred, *a, *b),
        Kind::Select(c, a, b) => push_select(out, names, results, *c, *a, *b),
        Kind::Call(func, uses) => push_call(out, names, results, *func, uses.as_slice()),
        _ => Ok(()),
    }
}
