ghost use Rattle.std.specs.Prelude.{◌≡◌, slice_get};
ghost use Rattle.std.specs.List.{flat_map};
ghost use Rattle.std.specs.Option.{option_map};
ghost use Rattle.mlir_ir.specs.ScopeFaults as faults;
ghost use Rattle.mlir_ir.specs.Source as source;
ghost use Rattle.mlir_ir.specs.declared.scope_kind.ScopeKind.TheVariants.{WrongType};
ghost use Rattle.mlir_scope.specs.Noted.{noted};
ghost use Rattle.mlir_scope.specs.Reading.{type_said, written_said};
ghost use Rattle.mlir_scope.specs.Said.{said};
ghost use Rattle.mlir_scope.specs.Scopes.{scope_said};

use crate::first::First;
use crate::phrase::{Part, next};
use crate::said::{ValueType, type_in, use_of};
use crate::scope::Scope;
use crate::uses::{differs, note_use};
use mlir_ir::{Branch, Form, ScopeKind, Token, is_same_form};

/// The first type that stands directly there.
fn first_type(tokens: &[Token], parts: &[Branch]) -> Option<ValueType>
    ensures { option_map type_said result
        ≡ option_map (λ (t : source.Written). t.ty)
        (slice_get (source.types_in (said tokens.now parts.now)) 0) }
{
    let mut rest = parts;
    'seek: while let Some((part, behind)) = next(tokens, rest) {
        rest = behind;
        if let Part::Line(form, _, inner) = part {
            if is_same_form(Form::TypeName, form) {
                return Some(type_in(tokens, inner));
            }
        }
    }
    None
}

/// Notes the uses that stand directly there and have another type.
#[tactic(auto, using(crate::proofs::Notes::noted_more))]
fn note_other(tokens: &[Token], scope: &Scope, parts: &[Branch], ty: ValueType, first: &mut First)
    ensures { first.new.best
        ≡ noted first.old.best
        (flat_map (λ u. faults.broken
        (faults.differs (scope_said scope.now) u (type_said ty)) u.at WrongType)
        (source.uses_in (said tokens.now parts.now))) }
{
    let mut rest = parts;
    'seek: while let Some((part, behind)) = next(tokens, rest) {
        rest = behind;
        if let Part::Line(form, at, inner) = part {
            if is_same_form(Form::Use, form) {
                let other = differs(scope, use_of(tokens, at, inner), ty);
                first.note_if(other, at, ScopeKind::WrongType);
            }
        }
    }
}

/// Notes uses that stand directly there and don't have the first written type.
#[tactic(auto, using(crate::proofs::OwnUses::same_first, crate::proofs::OwnUses::same_none))]
pub fn note_same_there(tokens: &[Token], scope: &Scope, parts: &[Branch], first: &mut First)
    ensures { first.new.best
        ≡ noted first.old.best
        (faults.same_written (scope_said scope.now) (source.uses_in (said tokens.now parts.now))
        (source.types_in (said tokens.now parts.now))) }
{
    if let Some(ty) = first_type(tokens, parts) {
        note_other(tokens, scope, parts, ty, first);
    }
}

/// Notes what the uses that stand directly there break, at an operation whose word has that token.
#[tactic(auto, using(crate::proofs::Notes::noted_more))]
pub fn note_uses_there(
    tokens: &[Token],
    scope: &Scope,
    parts: &[Branch],
    at: u32,
    first: &mut First,
)
    ensures { first.new.best
        ≡ noted first.old.best
        (faults.uses_breaks (scope_said scope.now) at
        (source.uses_in (said tokens.now parts.now))) }
{
    let mut rest = parts;
    'seek: while let Some((part, behind)) = next(tokens, rest) {
        rest = behind;
        if let Part::Line(form, token, inner) = part {
            if is_same_form(Form::Use, form) {
                note_use(scope, at, use_of(tokens, token, inner), first);
            }
        }
    }
}
