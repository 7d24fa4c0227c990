ghost use Rattle.std.specs.Prelude.{◌≡◌, ◌++◌, map, OnOk, string_bytes};
ghost use Rattle.mlir_ir.specs.Canonical.{arg_text, arrow_list, arrow_text, behind_commas, bracketed, joined, pack_text, packs_text, results_text, types_text};
ghost use Rattle.mlir_ir.specs.Words.{type_text};

use crate::words::push_type;
use mlir_ir::{Arg, IrType, Pack};
use std::alloc::AllocError;

#[tactic(auto, using(crate::proofs::Commas::behind_more))]
fn push_more_types(out: &mut String, types: &[IrType]) -> Result<(), AllocError>
    ensures { OnOk result
        (string_bytes out.new ≡ string_bytes out.old ++ behind_commas (map type_text types.now)) }
{
    for ty in types {
        write!(out, ", ")?;
        push_type(out, *ty)?;
    }
    Ok(())
}

/// Adds types, parted by a comma and a blank.
pub(crate) fn push_types(out: &mut String, types: &[IrType]) -> Result<(), AllocError>
    ensures { OnOk result (string_bytes out.new ≡ string_bytes out.old ++ types_text types.now) }
{
    match types.split_first() {
        None => Ok(()),
        Some((first, more)) => {
            push_type(out, *first)?;
            push_more_types(out, more)
        }
    }
}

/// Adds the types of arguments, parted by a comma and a blank.
pub(crate) fn push_arg_types(out: &mut String, args: &[Arg]) -> Result<(), AllocError>
    ensures { OnOk result
        (string_bytes out.new ≡ string_bytes out.old ++ types_text (map (λ arg. arg.ty) args.now)) }
{
    match args.split_first() {
        None => Ok(()),
        Some((first, more)) => {
            push_type(out, first.ty)?;
            push_more_arg_types(out, more)
        }
    }
}

#[tactic(auto, using(crate::proofs::Commas::behind_more_parts))]
fn push_more_arg_types(out: &mut String, args: &[Arg]) -> Result<(), AllocError>
    ensures { OnOk result
        (string_bytes out.new ≡ string_bytes out.old
        ++ behind_commas (map type_text (map (λ arg. arg.ty) args.now))) }
{
    for arg in args {
        write!(out, ", ")?;
        push_type(out, arg.ty)?;
    }
    Ok(())
}

/// Adds the result types of a function or a call; one stands without brackets.
pub(crate) fn push_results(out: &mut String, types: &[IrType]) -> Result<(), AllocError>
    ensures { OnOk result (string_bytes out.new ≡ string_bytes out.old ++ results_text types.now) }
{
    match types {
        [ty] => push_type(out, *ty),
        _ => push_bracketed(out, types),
    }
}

/// Adds types in brackets.
pub(crate) fn push_bracketed(out: &mut String, types: &[IrType]) -> Result<(), AllocError>
    ensures { OnOk result
        (string_bytes out.new ≡ string_bytes out.old ++ bracketed (types_text types.now)) }
{
    write!(out, "(")?;
    push_types(out, types)?;
    write!(out, ")")
}

/// Adds the result types of a function, where it has some.
pub(crate) fn push_arrow(out: &mut String, types: &[IrType]) -> Result<(), AllocError>
    ensures { OnOk result (string_bytes out.new ≡ string_bytes out.old ++ arrow_text types.now) }
{
    if types.is_empty() {
        return Ok(());
    }
    write!(out, " -> ")?;
    push_results(out, types)
}

/// Adds the result types of an operation with regions, where it has some.
pub(crate) fn push_arrow_list(out: &mut String, types: &[IrType]) -> Result<(), AllocError>
    ensures { OnOk result (string_bytes out.new ≡ string_bytes out.old ++ arrow_list types.now) }
{
    if types.is_empty() {
        return Ok(());
    }
    write!(out, " -> ")?;
    push_bracketed(out, types)
}

/// Adds an argument with its type.
fn push_arg(out: &mut String, arg: &Arg) -> Result<(), AllocError>
    ensures { OnOk result (string_bytes out.new ≡ string_bytes out.old ++ arg_text arg.now) }
{
    let name = &arg.name;
    write!(out, "%{name}: ")?;
    push_type(out, arg.ty)
}

#[tactic(auto, using(crate::proofs::Commas::behind_more))]
fn push_more_args(out: &mut String, args: &[Arg]) -> Result<(), AllocError>
    ensures { OnOk result
        (string_bytes out.new ≡ string_bytes out.old ++ behind_commas (map arg_text args.now)) }
{
    for arg in args {
        write!(out, ", ")?;
        push_arg(out, arg)?;
    }
    Ok(())
}

/// Adds arguments with their types in brackets.
pub(crate) fn push_args(out: &mut String, args: &[Arg]) -> Result<(), AllocError>
    ensures { OnOk result
        (string_bytes out.new ≡ string_bytes out.old
        ++ bracketed (joined (map arg_text args.now))) }
{
    write!(out, "(")?;
    if let Some((first, more)) = args.split_first() {
        push_arg(out, first)?;
        push_more_args(out, more)?;
    }
    write!(out, ")")
}

/// Adds a name of results with how many it stands for, where that is more than one.
fn push_pack(out: &mut String, pack: &Pack) -> Result<(), AllocError>
    ensures { OnOk result (string_bytes out.new ≡ string_bytes out.old ++ pack_text pack.now) }
{
    let name = &pack.name;
    let count = pack.count;
    if count > 1 {
        write!(out, "%{name}:{count}")
    } else {
        write!(out, "%{name}")
    }
}

#[tactic(auto, using(crate::proofs::Commas::behind_more))]
fn push_more_packs(out: &mut String, packs: &[Pack]) -> Result<(), AllocError>
    ensures { OnOk result
        (string_bytes out.new ≡ string_bytes out.old ++ behind_commas (map pack_text packs.now)) }
{
    for pack in packs {
        write!(out, ", ")?;
        push_pack(out, pack)?;
    }
    Ok(())
}

/// Adds the names of results, where there are some.
pub(crate) fn push_packs(out: &mut String, packs: &[Pack]) -> Result<(), AllocError>
    ensures { OnOk result (string_bytes out.new ≡ string_bytes out.old ++ packs_text packs.now) }
{
    match packs.split_first() {
        None => Ok(()),
        Some((first, more)) => {
            push_pack(out, first)?;
            push_more_packs(out, more)?;
            write!(out, " = ")
        }
    }
}
