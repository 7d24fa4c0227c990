ghost use Rattle.std.specs.Prelude.{◌≡◌, map, slice_index_or, IfOk};
ghost use Rattle.mlir_ir.specs.Resolved as resolved;
ghost use Rattle.mlir_ir.specs.Source as source;
ghost use Rattle.mlir_scope.specs.Built.{values_in};
ghost use Rattle.mlir_scope.specs.InScope.{value_of};
ghost use Rattle.mlir_scope.specs.Reading.{use_said};
ghost use Rattle.mlir_scope.specs.Said.{said};

use crate::digits::capped;
use crate::phrase::{Part, inside, next};
use crate::said::{Use, same_bytes, use_of};
use crate::scope_names::{Named, ScopeNames};
use crate::unbuilt::Unbuilt;
use arith_word::{Label, List};
use mlir_ir::{Branch, Form, Token, is_same_form};
use std::alloc::Global;

/// Whether the value is used.
#[tactic(auto, using(crate::proofs::Caps::cut_same))]
fn is_used(u: Use, value: &Named) -> bool
    ensures { result ≡ resolved.is_of (use_said u.entry) (value_of value.now) }
{
    same_bytes(value.name, u.name) && u128::from(value.place) == capped(10, u.pick)
}

/// The label of the first of some values that is used, 0 where there is none.
#[tactic(auto, using(crate::proofs::Parted::cut_here))]
fn label_in(values: &[Named], u: Use) -> Label
    ensures { result ≡ resolved.label (map value_of values.now) (use_said u.entry) }
{
    'seek: for value in values {
        if is_used(u, value) {
            return Label(value.label);
        }
    }
    Label(0)
}

/// The label of the value that is used, 0 where there is none.
#[tactic(auto, using(crate::proofs::UsedLabels::label_found))]
fn label_of(scope: &ScopeNames, u: Use) -> Label
    ensures { result ≡ resolved.label (values_in scope.now) (use_said u.entry) }
{
    let pick = capped(10, u.pick);
    if pick > u128::from(u32::MAX) {
        return label_in(scope.as_slice(), u);
    }
    match scope.find(u.name, pick as u32) {
        Some(value) => Label(value.label),
        None => Label(0),
    }
}

/// The labels of the values that are used.
pub(crate) fn labels_of(
    alloc: Global,
    scope: &ScopeNames,
    uses: &[Use],
) -> Result<Vec<Label>, Unbuilt>
    ensures { IfOk result
        (λ made. made.items ≡ resolved.labels (values_in scope.now) (map use_said uses.now)) }
{
    let mut made = Vec::with_capacity(alloc, uses.len())?;
    'each: for u in uses {
        made.push(label_of(scope, *u))?;
    }
    Ok(made)
}

/// The label at that place, 0 behind the last.
pub(crate) fn nth(labels: &[Label], at: usize) -> Label
    ensures { result ≡ slice_index_or labels.now at (record { 0 = 0 }) }
{
    match labels.get(at) {
        Some(label) => *label,
        None => Label(0),
    }
}

/// The labels of the uses that stand directly there.
pub(crate) fn own_labels(
    alloc: Global,
    tokens: &[Token],
    scope: &ScopeNames,
    kind: &[Branch],
) -> Result<Vec<Label>, Unbuilt>
    ensures { IfOk result
        (λ made. made.items
        ≡ resolved.labels (values_in scope.now) (source.uses_in (said tokens.now kind.now))) }
{
    let mut made = Vec::new(alloc);
    let mut rest = kind;
    'seek: while let Some((part, behind)) = next(tokens, rest) {
        rest = behind;
        if let Part::Line(form, at, inner) = part {
            if is_same_form(Form::Use, form) {
                made.push(label_of(scope, use_of(tokens, at, inner)))?;
            }
        }
    }
    Ok(made)
}

/// The label of the first use that stands directly there.
pub(crate) fn first_use(
    alloc: Global,
    tokens: &[Token],
    scope: &ScopeNames,
    kind: &[Branch],
) -> Result<Label, Unbuilt>
    ensures { IfOk result
        (λ label. label ≡ resolved.nth_use (values_in scope.now) 0 (said tokens.now kind.now)) }
{
    let own = own_labels(alloc, tokens, scope, kind)?;
    Ok(nth(&own, 0))
}

/// The labels of the uses in a list.
pub(crate) fn listed_labels(
    alloc: Global,
    tokens: &[Token],
    scope: &ScopeNames,
    parts: &[Branch],
) -> Result<List<Label>, Unbuilt>
    ensures { IfOk result
        (λ made. made
        ≡ resolved.labels (values_in scope.now) (source.listed_uses (said tokens.now parts.now))) }
{
    let made = own_labels(alloc, tokens, scope, inside(tokens, parts, Form::Uses))?;
    Ok(List::from_vec(made))
}
