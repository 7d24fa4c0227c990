ghost use Rattle.std.specs.Prelude.{◌≡◌, ℕ, [], ◌++◌, map, OnOk, string_bytes};
ghost use Rattle.std.specs.List.{zip};
ghost use Rattle.std.specs.Option.{option_map, option_map_or};
ghost use Rattle.mlir_ir.specs.Canonical.{behind_commas, ends_text, init_text, inits_text, use_text, used_type, used_types, uses_text, value_text};
ghost use Rattle.mlir_ir.specs.Words.{type_text};
ghost use Rattle.mlir_print.specs.Slots.{slot_value};

use crate::naming::{Names, Slot};
use crate::words::push_type;
use arith_word::Label;
use mlir_ir::Arg;
use std::alloc::AllocError;

/// Adds the name of the value in a slot; behind a name of several results, which of them it is.
fn push_slot(out: &mut String, slot: &Slot<'_>) -> Result<(), AllocError>
    ensures { OnOk result
        ((label : ℕ) → string_bytes out.new ≡ string_bytes out.old
        ++ option_map_or value_text (slot_value label slot.now) []) }
{
    match slot {
        Slot::Empty => Ok(()),
        Slot::Argument(arg) => {
            let name = &arg.name;
            write!(out, "%{name}")
        }
        Slot::Part(pack, place, _) => {
            let name = &pack.name;
            if pack.count > 1 {
                write!(out, "%{name}#{place}")
            } else {
                write!(out, "%{name}")
            }
        }
    }
}

/// Adds the type of the value in a slot.
fn push_slot_type(out: &mut String, slot: &Slot<'_>) -> Result<(), AllocError>
    ensures { OnOk result
        ((label : ℕ) → string_bytes out.new ≡ string_bytes out.old
        ++ option_map_or type_text (option_map (λ v. v.ty) (slot_value label slot.now)) []) }
{
    match slot {
        Slot::Empty => Ok(()),
        Slot::Argument(arg) => push_type(out, arg.ty),
        Slot::Part(_, _, ty) => push_type(out, **ty),
    }
}

/// Adds the name of a used value.
pub(crate) fn push_use(out: &mut String, names: &Names<'_>, label: Label) -> Result<(), AllocError>
    ensures { OnOk result
        (string_bytes out.new ≡ string_bytes out.old ++ use_text names.now label) }
{
    match names.slot(label) {
        None => Ok(()),
        Some(slot) => push_slot(out, slot),
    }
}

/// Adds the type of a used value.
pub(crate) fn push_used_type(
    out: &mut String,
    names: &Names<'_>,
    label: Label,
) -> Result<(), AllocError>
    ensures { OnOk result
        (string_bytes out.new ≡ string_bytes out.old ++ used_type names.now label) }
{
    match names.slot(label) {
        None => Ok(()),
        Some(slot) => push_slot_type(out, slot),
    }
}

#[tactic(auto, using(crate::proofs::Commas::behind_more))]
fn push_more_uses(out: &mut String, names: &Names<'_>, labels: &[Label]) -> Result<(), AllocError>
    ensures { OnOk result
        (string_bytes out.new ≡ string_bytes out.old
        ++ behind_commas (map (use_text names.now) labels.now)) }
{
    for label in labels {
        write!(out, ", ")?;
        push_use(out, names, *label)?;
    }
    Ok(())
}

/// Adds used values, parted by a comma and a blank.
pub(crate) fn push_uses(
    out: &mut String,
    names: &Names<'_>,
    labels: &[Label],
) -> Result<(), AllocError>
    ensures { OnOk result
        (string_bytes out.new ≡ string_bytes out.old ++ uses_text names.now labels.now) }
{
    match labels.split_first() {
        None => Ok(()),
        Some((first, more)) => {
            push_use(out, names, *first)?;
            push_more_uses(out, names, more)
        }
    }
}

#[tactic(auto, using(crate::proofs::Commas::behind_more))]
fn push_more_used_types(
    out: &mut String,
    names: &Names<'_>,
    labels: &[Label],
) -> Result<(), AllocError>
    ensures { OnOk result
        (string_bytes out.new ≡ string_bytes out.old
        ++ behind_commas (map (used_type names.now) labels.now)) }
{
    for label in labels {
        write!(out, ", ")?;
        push_used_type(out, names, *label)?;
    }
    Ok(())
}

/// Adds the types of used values, parted by a comma and a blank.
pub(crate) fn push_used_types(
    out: &mut String,
    names: &Names<'_>,
    labels: &[Label],
) -> Result<(), AllocError>
    ensures { OnOk result
        (string_bytes out.new ≡ string_bytes out.old ++ used_types names.now labels.now) }
{
    match labels.split_first() {
        None => Ok(()),
        Some((first, more)) => {
            push_used_type(out, names, *first)?;
            push_more_used_types(out, names, more)
        }
    }
}

/// Adds the values that a terminator gives on with their types, where there are some.
pub(crate) fn push_ends(
    out: &mut String,
    names: &Names<'_>,
    labels: &[Label],
) -> Result<(), AllocError>
    ensures { OnOk result
        (string_bytes out.new ≡ string_bytes out.old ++ ends_text names.now labels.now) }
{
    if labels.is_empty() {
        return Ok(());
    }
    write!(out, " ")?;
    push_uses(out, names, labels)?;
    write!(out, " : ")?;
    push_used_types(out, names, labels)
}

/// Adds an argument of a loop with its first value.
fn push_init(out: &mut String, names: &Names<'_>, arg: &Arg, init: Label) -> Result<(), AllocError>
    ensures { OnOk result
        (string_bytes out.new ≡ string_bytes out.old ++ init_text names.now (arg.now, init)) }
{
    let name = &arg.name;
    write!(out, "%{name} = ")?;
    push_use(out, names, init)
}

#[tactic(auto, using(crate::proofs::Commas::inits_more))]
fn push_more_inits(
    out: &mut String,
    names: &Names<'_>,
    args: &[Arg],
    inits: &[Label],
) -> Result<(), AllocError>
    ensures { OnOk result
        (string_bytes out.new ≡ string_bytes out.old
        ++ behind_commas (map (init_text names.now) (zip args.now inits.now))) }
{
    for k in 0..args.len().min(inits.len()) {
        write!(out, ", ")?;
        push_init(out, names, &args[k], inits[k])?;
    }
    Ok(())
}

/// Adds the arguments of a loop with their first values, in brackets.
pub(crate) fn push_inits(
    out: &mut String,
    names: &Names<'_>,
    args: &[Arg],
    inits: &[Label],
) -> Result<(), AllocError>
    ensures { OnOk result
        (string_bytes out.new ≡ string_bytes out.old ++ inits_text names.now args.now inits.now) }
{
    write!(out, "(")?;
    if let [arg, more_args @ ..] = args {
        if let [init, more_inits @ ..] = inits {
            push_init(out, names, arg, *init)?;
            push_more_inits(out, names, more_args, more_inits)?;
        }
    }
    write!(out, ")")
}
