ghost use Rattle.std.specs.Prelude.{◌≡◌, [], ◌∷◌};
ghost use Rattle.std.specs.List.{list_any};
ghost use Rattle.std.specs.Str.{bytes_eq};
ghost use Rattle.mlir_ir.specs.Rules as spec;
ghost use Rattle.mlir_ir.specs.Words.{bits_of};
ghost use Rattle.mlir_ir.specs.Scope.{scope_values};

use crate::names::is_name;
use crate::scope::Scope;
use crate::types::{Flags, ForParts, IrType, Kind, Pack, WhileParts};
use crate::uses::{agree, args_give, gives, has_type, have_arg_types};
use arith_word::{BinOp, CastOp, Label, Width};

/// Whether a value may be defined with that name.
pub(crate) fn is_free(scope: &Scope, name: &[u8]) -> bool
    ensures { result ≡ spec.is_free (scope_values scope.now) name.now }
{
    is_name(name) && !scope.has_name(name)
}

fn is_among(packs: &[Pack], name: &[u8]) -> bool
    ensures { result ≡ list_any (λ other. bytes_eq other.name name.now) packs.now }
{
    packs.iter().any(|other| other.name.as_bytes() == name)
}

/// Whether the packs of one operation may have their names.
pub(crate) fn are_free(scope: &Scope, packs: &[Pack]) -> bool
    ensures { result ≡ spec.are_free (scope_values scope.now) packs.now }
{
    for (k, pack) in packs.iter().enumerate() {
        let name = pack.name.as_bytes();
        if !is_free(scope, name) {
            return false;
        }
        if is_among(&packs[k + 1..], name) {
            return false;
        }
    }
    true
}

fn may_wrap(op: BinOp) -> bool
    ensures { result ≡ spec.may_wrap op }
{
    match op {
        BinOp::Addi | BinOp::Subi | BinOp::Muli | BinOp::Shli => true,
        _ => false,
    }
}

fn may_lose(op: CastOp) -> bool
    ensures { result ≡ spec.may_lose op }
{
    match op {
        CastOp::Trunci => true,
        _ => false,
    }
}

fn has_flags(flags: Flags) -> bool
    ensures { result ≡ spec.has_flags flags }
{
    flags.nsw || flags.nuw
}

fn casts_int(op: CastOp, from: Width, to: IrType) -> bool
    ensures { result ≡ spec.casts op (IrType.Int from) to }
{
    match to {
        IrType::Int(to) => match op {
            CastOp::Extsi => from.bits() < to.bits(),
            CastOp::Extui => from.bits() < to.bits(),
            CastOp::Trunci => to.bits() < from.bits(),
            CastOp::IndexCast => false,
            CastOp::IndexCastui => false,
        },
        IrType::Index => casts_index(op),
    }
}

/// Whether a cast of that name leads from or to `index`.
fn casts_index(op: CastOp) -> bool
    ensures { result ≡ spec.casts op (IrType.Int 1) IrType.Index }
{
    match op {
        CastOp::Extsi => false,
        CastOp::Extui => false,
        CastOp::Trunci => false,
        CastOp::IndexCast => true,
        CastOp::IndexCastui => true,
    }
}

/// Whether a cast leads from the first type to the second.
fn casts(op: CastOp, from: IrType, to: IrType) -> bool
    ensures { result ≡ spec.casts op from to }
{
    match from {
        IrType::Int(from) => casts_int(op, from, to),
        IrType::Index => match to {
            IrType::Int(_) => casts_index(op),
            IrType::Index => false,
        },
    }
}

/// Whether a cast of that use gives the results.
fn gives_cast(scope: &Scope, op: CastOp, label: Label, results: &[IrType]) -> bool
    ensures { result ≡ spec.gives_cast (scope_values scope.now) op label results.now }
{
    if results.is_empty() {
        return true;
    }
    match scope.type_of(label.0) {
        Some(from) => casts(op, from, results[0]),
        None => true,
    }
}

/// Whether the results have the type of that use.
#[tactic(auto, using(crate::proofs::TypedLabels::first_given))]
fn gives_type_of(scope: &Scope, label: Label, results: &[IrType]) -> bool
    ensures { result ≡ spec.gives_type_of (scope_values scope.now) label results.now }
{
    results.is_empty() || has_type(scope, results[0], label)
}

/// Whether a number is below 2 to the width of the type.
fn is_below(v: u64, ty: IrType) -> bool
    ensures { result ≡ spec.gives_number v (ty ∷ []) }
{
    match ty {
        IrType::Int(width) => v <= width.mask(),
        IrType::Index => true,
    }
}

/// Whether the literal is a number of the results' width.
fn gives_number(v: u64, results: &[IrType]) -> bool
    ensures { result ≡ spec.gives_number v results.now }
{
    results.is_empty() || is_below(v, results[0])
}

/// The type of a truth value, `i1`.
pub(crate) fn truth() -> IrType
    ensures { result ≡ spec.truth }
{
    match Width::new(1) {
        Some(width) => IrType::Int(width),
        None => IrType::Index,
    }
}

fn is_for_typed(scope: &Scope, results: &[IrType], parts: &ForParts) -> bool
    ensures { result ≡ spec.is_kind_typed (scope_values scope.now) results.now
        (Kind.For parts.now) }
{
    has_type(scope, parts.iv.ty, parts.lower)
        && has_type(scope, parts.iv.ty, parts.upper)
        && has_type(scope, parts.iv.ty, parts.step)
        && have_arg_types(scope, parts.args.as_slice(), parts.inits.as_slice())
        && args_give(parts.args.as_slice(), results)
}

fn is_while_typed(scope: &Scope, parts: &WhileParts) -> bool
    ensures { result ≡ spec.is_kind_typed (scope_values scope.now) [] (Kind.While parts.now) }
{
    have_arg_types(scope, parts.args.as_slice(), parts.inits.as_slice())
}

/// Whether flags, operands and results fit the operation.
pub(crate) fn is_kind_typed(scope: &Scope, results: &[IrType], kind: &Kind) -> bool
    ensures { result ≡ spec.is_kind_typed (scope_values scope.now) results.now kind.now }
{
    match kind {
        Kind::Const(v) => gives_number(*v, results),
        Kind::Bin(op, flags, a, b) => {
            (may_wrap(*op) || !has_flags(*flags))
                && agree(scope, *a, *b)
                && gives_type_of(scope, *a, results)
        }
        Kind::Cast(op, flags, a) => (may_lose(*op) || !has_flags(*flags))
            && gives_cast(scope, *op, *a, results),
        Kind::Cmp(_, a, b) => agree(scope, *a, *b) && gives(truth(), results),
        Kind::Select(c, a, b) => {
            has_type(scope, truth(), *c)
                && agree(scope, *a, *b)
                && gives_type_of(scope, *a, results)
        }
        Kind::Call(_, _) => true,
        Kind::If(c, _, _) => has_type(scope, truth(), *c),
        Kind::For(parts) => is_for_typed(scope, results, parts),
        Kind::While(parts) => is_while_typed(scope, parts),
    }
}
