ghost use Rattle.std.specs.Prelude.{◌≡◌, [], ◌∷◌};
ghost use Rattle.mlir_ir.specs.Rules as spec;
ghost use Rattle.mlir_ir.specs.Scope.{scope_values};

use crate::scope::Scope;
use crate::types::{Arg, IrType, Kind};
use arith_word::{Label, Width};

fn is_int(width: Width, ty: IrType) -> bool
    ensures { result ≡ spec.same_type (IrType.Int width) ty }
{
    match ty {
        IrType::Int(other) => width.bits() == other.bits(),
        IrType::Index => false,
    }
}

/// Whether the types are equal.
pub fn same_type(a: IrType, b: IrType) -> bool
    ensures { result ≡ spec.same_type a b }
{
    match a {
        IrType::Int(width) => is_int(width, b),
        IrType::Index => match b {
            IrType::Int(_) => false,
            IrType::Index => true,
        },
    }
}

fn is_in_scope(scope: &Scope, label: Label) -> bool
    ensures { result ≡ spec.is_in_scope (scope_values scope.now) label }
{
    scope.type_of(label.0).is_some()
}

pub(crate) fn are_in_scope(scope: &Scope, labels: &[Label]) -> bool
    ensures { result ≡ spec.are_in_scope (scope_values scope.now) labels.now }
{
    labels.iter().all(|label| is_in_scope(scope, *label))
}

/// Whether a use has that type; one that is out of scope has every type.
pub(crate) fn has_type(scope: &Scope, ty: IrType, label: Label) -> bool
    ensures { result ≡ spec.has_type (scope_values scope.now) ty label }
{
    match scope.type_of(label.0) {
        Some(found) => same_type(ty, found),
        None => true,
    }
}

/// Whether two uses have one type.
pub(crate) fn agree(scope: &Scope, a: Label, b: Label) -> bool
    ensures { result ≡ spec.agree (scope_values scope.now) a b }
{
    match scope.type_of(a.0) {
        Some(ty) => has_type(scope, ty, b),
        None => true,
    }
}

/// Whether uses have the types that belong to them, as far as both lists go.
#[tactic(auto, using(crate::proofs::TypedLabels::no_labels))]
pub(crate) fn have_types(scope: &Scope, types: &[IrType], labels: &[Label]) -> bool
    ensures { result ≡ spec.have_types (scope_values scope.now) types.now labels.now }
{
    for (k, label) in labels.iter().enumerate() {
        if types.len() <= k {
            return true;
        }
        if !has_type(scope, types[k], *label) {
            return false;
        }
    }
    true
}

/// Whether first values have the types of their arguments, as far as both lists go.
#[tactic(auto, using(crate::proofs::TypedLabels::no_labels))]
pub(crate) fn have_arg_types(scope: &Scope, args: &[Arg], labels: &[Label]) -> bool
    ensures { result ≡ spec.have_types (scope_values scope.now)
        (spec.arg_types args.now) labels.now }
{
    for (k, label) in labels.iter().enumerate() {
        if args.len() <= k {
            return true;
        }
        if !has_type(scope, args[k].ty, *label) {
            return false;
        }
    }
    true
}

/// Whether arguments have the types of the results, as far as both lists go.
pub(crate) fn args_give(args: &[Arg], results: &[IrType]) -> bool
    ensures { result ≡ spec.same_types (spec.arg_types args.now) results.now }
{
    for (k, arg) in args.iter().enumerate() {
        if results.len() <= k {
            return true;
        }
        if !same_type(arg.ty, results[k]) {
            return false;
        }
    }
    true
}

/// Whether the first of the types, where there is one, is that.
pub(crate) fn gives(ty: IrType, types: &[IrType]) -> bool
    ensures { result ≡ spec.same_types (ty ∷ []) types.now }
{
    types.is_empty() || same_type(ty, types[0])
}

/// Whether the operands of an operation are in scope.
pub(crate) fn operands_in_scope(scope: &Scope, kind: &Kind) -> bool
    ensures { result ≡ spec.are_in_scope (scope_values scope.now) (spec.operands kind.now) }
{
    match kind {
        Kind::Const(_) => true,
        Kind::Bin(_, _, a, b) => is_in_scope(scope, *a) && is_in_scope(scope, *b),
        Kind::Cast(_, _, a) => is_in_scope(scope, *a),
        Kind::Cmp(_, a, b) => is_in_scope(scope, *a) && is_in_scope(scope, *b),
        Kind::Select(c, a, b) => is_in_scope(scope, *c)
            && is_in_scope(scope, *a)
            && is_in_scope(scope, *b),
        Kind::Call(_, uses) => are_in_scope(scope, uses.as_slice()),
        Kind::If(c, _, _) => is_in_scope(scope, *c),
        Kind::For(parts) => {
            is_in_scope(scope, parts.lower)
                && is_in_scope(scope, parts.upper)
                && is_in_scope(scope, parts.step)
                && are_in_scope(scope, parts.inits.as_slice())
        }
        Kind::While(parts) => are_in_scope(scope, parts.inits.as_slice()),
    }
}
