ghost use Rattle.std.specs.Prelude.{◌≡◌, ◌^◌, ◌++◌, [], false, true, codes, if◌then◌else◌, OnOk, string_bytes};
ghost use Rattle.scev_text.specs.Naming.{loop_text};
ghost use Rattle.scev_text.specs.Texts.{coefficient_text, expr_text, factor_text, places_text, polynomial_text, power_text, term_text, terms_text};
ghost use Rattle.scev_tree.specs.Polynomial.{AreCanonical, IsCanonical, variable_of};
ghost use Rattle.scev_tree.specs.Tree.{polynomial_of, polynomials};

use crate::coefficients::{is_one, is_sum};
use crate::naming::ValueNames;
use crate::numbers::push_number;
use arith_word::{Label, Width};
use scev_tree::{Expr, Tree, is_zero};
use std::alloc::AllocError;

/// Adds the text of an expression.
pub fn push_expr(out: &mut String, names: &ValueNames<'_>, e: &Expr) -> Result<(), AllocError>
    ensures { OnOk result (string_bytes out.new
        ≡ string_bytes out.old ++ expr_text names.now e.now) }
{
    push_tree(out, names, e.w, &e.tree)
}

/// Adds the text of a tree.
#[cycle(printing)]
fn push_tree(out: &mut String, names: &ValueNames<'_>, w: Width, t: &Tree) -> Result<(), AllocError>
    requires { IsCanonical (2 ^ w) (polynomial_of t.now) }
    ensures { OnOk result (string_bytes out.new
        ≡ string_bytes out.old ++ polynomial_text names.now w (polynomial_of t.now)) }
{
    match t {
        Tree::Num(v) => push_number(out, w, *v)?,
        Tree::Ext { counter, var, ops } => {
            if *counter {
                push_recurrence(out, names, w, *var, ops.as_slice())?
            } else {
                push_terms(out, names, w, *var, ops.as_slice())?
            }
        }
    }
    Ok(())
}

/// Adds the places of a counter with its loop.
#[cycle(printing)]
fn push_recurrence(
    out: &mut String,
    names: &ValueNames<'_>,
    w: Width,
    counter: Label,
    places: &[Tree],
) -> Result<(), AllocError>
    requires { AreCanonical (2 ^ w) (polynomials places.now) (variable_of true counter.0) }
    ensures { OnOk result (string_bytes out.new
        ≡ string_bytes out.old ++ (codes "{" ++ places_text names.now w (polynomials places.now)
        ++ codes "}<" ++ loop_text names.now.loops counter.0 ++ codes ">")) }
{
    write!(out, "{{")?;
    push_places(out, names, w, counter, places)?;
    write!(out, "}}<")?;
    names.push_loop(out, counter)?;
    write!(out, ">")?;
    Ok(())
}

/// Adds the places of a counter.
#[cycle(printing)]
fn push_places(
    out: &mut String,
    names: &ValueNames<'_>,
    w: Width,
    counter: Label,
    places: &[Tree],
) -> Result<(), AllocError>
    requires { AreCanonical (2 ^ w) (polynomials places.now) (variable_of true counter.0) }
    ensures { OnOk result (string_bytes out.new
        ≡ string_bytes out.old ++ places_text names.now w (polynomials places.now)) }
{
    let mut behind = false;
    for place in places {
        push_between(out, behind, ",+,")?;
        push_tree(out, names, w, place)?;
        behind = true;
    }
    Ok(())
}

/// Adds what parts two texts, where one stands before.
fn push_between(out: &mut String, behind: bool, mark: &str) -> Result<(), AllocError>
    ensures { OnOk result (string_bytes out.new
        ≡ string_bytes out.old ++ (if behind then mark.now else [])) }
{
    if behind {
        write!(out, "{mark}")?;
    }
    Ok(())
}

/// Adds the terms of a symbol whose places aren't 0.
#[cycle(printing)]
fn push_terms(
    out: &mut String,
    names: &ValueNames<'_>,
    w: Width,
    label: Label,
    places: &[Tree],
) -> Result<(), AllocError>
    requires { AreCanonical (2 ^ w) (polynomials places.now) (variable_of false label.0) }
    ensures { OnOk result (string_bytes out.new
        ≡ string_bytes out.old ++ terms_text names.now w label.0 false 0 (polynomials places.now)) }
{
    let mut behind = false;
    for (exponent, place) in places.iter().enumerate() {
        if is_zero(place) {
            continue;
        }
        push_between(out, behind, " + ")?;
        push_term(out, names, w, label, exponent, place)?;
        behind = true;
    }
    Ok(())
}

/// Adds a place of a symbol with the power that it belongs to.
#[cycle(printing)]
fn push_term(
    out: &mut String,
    names: &ValueNames<'_>,
    w: Width,
    label: Label,
    exponent: usize,
    place: &Tree,
) -> Result<(), AllocError>
    requires { IsCanonical (2 ^ w) (polynomial_of place.now) }
    ensures { OnOk result (string_bytes out.new
        ≡ string_bytes out.old
        ++ term_text names.now label.0 exponent (polynomial_of place.now)
        (polynomial_text names.now w (polynomial_of place.now))) }
{
    if exponent == 0 {
        push_tree(out, names, w, place)?;
    } else {
        push_coefficient(out, names, w, place)?;
        push_power(out, names, label, exponent)?;
    }
    Ok(())
}

/// Adds a coefficient with its `*`, where it isn't 1.
#[cycle(printing)]
fn push_coefficient(
    out: &mut String,
    names: &ValueNames<'_>,
    w: Width,
    t: &Tree,
) -> Result<(), AllocError>
    requires { IsCanonical (2 ^ w) (polynomial_of t.now) }
    ensures { OnOk result (string_bytes out.new
        ≡ string_bytes out.old
        ++ coefficient_text (polynomial_of t.now)
        (polynomial_text names.now w (polynomial_of t.now))) }
{
    if is_one(t) {
        return Ok(());
    }
    push_factor(out, names, w, t)?;
    write!(out, "*")?;
    Ok(())
}

/// Adds a factor of a product: a sum stands in parentheses.
#[cycle(printing)]
fn push_factor(
    out: &mut String,
    names: &ValueNames<'_>,
    w: Width,
    t: &Tree,
) -> Result<(), AllocError>
    requires { IsCanonical (2 ^ w) (polynomial_of t.now) }
    ensures { OnOk result (string_bytes out.new
        ≡ string_bytes out.old
        ++ factor_text (polynomial_of t.now) (polynomial_text names.now w (polynomial_of t.now))) }
{
    if is_sum(t) {
        write!(out, "(")?;
        push_tree(out, names, w, t)?;
        write!(out, ")")?;
    } else {
        push_tree(out, names, w, t)?;
    }
    Ok(())
}

/// Adds a symbol to a power that isn't 0.
fn push_power(
    out: &mut String,
    names: &ValueNames<'_>,
    label: Label,
    exponent: usize,
) -> Result<(), AllocError>
    ensures { OnOk result (string_bytes out.new
        ≡ string_bytes out.old ++ power_text names.now label.0 exponent) }
{
    names.push_symbol(out, label)?;
    if exponent > 1 {
        write!(out, "^{exponent}")?;
    }
    Ok(())
}
