ghost use Rattle.std.specs.Prelude.{◌≡◌, ◌+◌, false, reverse, length, IfOk, OnOk, Some, ◌∷◌, []};
ghost use Rattle.pass_expand.specs.Added.{Adds};
ghost use Rattle.pass_expand.specs.Terms.{term};
ghost use Rattle.pass_expand.specs.Expanded as spec;

use arith_word::Label;
use mlir_ir::IrType;
use pass_copy::Out;
use std::alloc::{AllocError, Global};

/// Adds the products of a value with each of the symbols, the last of them first.
fn push_products(
    alloc: Global,
    out: &mut Out,
    ty: &IrType,
    value: Label,
    symbols: &[Label],
) -> Result<Label, AllocError>
    requires anew { out.old.fresh.kept ≡ false }
    requires behind { value.0 + 1 ≡ out.old.at }
    ensures label { IfOk result (λ l. l.0 ≡ value.0 + length symbols.now) }
    ensures built { OnOk result (Adds out.old ty.now
        (spec.products value.0 (reverse symbols.now)) out.new) }
{
    let mut value = value;
    let count = symbols.len();
    for done in 0..count {
        value = out.product(alloc, *ty, value, symbols[count - 1 - done])?;
    }
    Ok(value)
}

/// Adds the operations of a term.
fn push_term(
    alloc: Global,
    out: &mut Out,
    ty: &IrType,
    coefficient: u64,
    symbols: &[Label],
) -> Result<Label, AllocError>
    requires anew { out.old.fresh.kept ≡ false }
    ensures label { IfOk result (λ l. l.0 ≡ out.old.at + length symbols.now) }
    ensures built { OnOk result (Adds out.old ty.now
        (spec.term_steps ty.now out.old.at (term coefficient (reverse symbols.now))) out.new) }
{
    let value = out.constant(alloc, *ty, u128::from(coefficient))?;
    push_products(alloc, out, ty, value, symbols)
}

/// Adds a term to the sum so far, if there is one.
pub(crate) fn add_term(
    alloc: Global,
    out: &mut Out,
    ty: &IrType,
    sum: Option<Label>,
    coefficient: u64,
    symbols: &[Label],
) -> Result<Label, AllocError>
    requires anew { out.old.fresh.kept ≡ false }
    ensures value { IfOk result (λ l. Some l ≡ spec.sum_after out.old.at sum
        (term coefficient (reverse symbols.now) ∷ [])) }
    ensures built { OnOk result (Adds out.old ty.now (spec.steps ty.now out.old.at sum
        (term coefficient (reverse symbols.now) ∷ [])) out.new) }
{
    let value = push_term(alloc, out, ty, coefficient, symbols)?;
    match sum {
        None => Ok(value),
        Some(sum) => out.sum(alloc, *ty, sum, value),
    }
}
