ghost use Rattle.std.specs.Prelude.{◌≡◌, ◌++◌, ◌∷◌, [], drop, map, OnOk, IfOk};
ghost use Rattle.mlir_ir.specs.Resolved as resolved;
ghost use Rattle.mlir_ir.specs.ScopeFaults as faults;
ghost use Rattle.mlir_ir.specs.Rules as rules;
ghost use Rattle.mlir_ir.specs.Source as source;
ghost use Rattle.mlir_scope.specs.Noted.{noted};
ghost use Rattle.mlir_scope.specs.Reading.{use_said, type_said, written_said, defined_said};
ghost use Rattle.mlir_scope.specs.Said.{said};
ghost use Rattle.mlir_scope.specs.Scopes.{scope_said};

use crate::first::First;
use crate::phrase::{Part, has, head, inside, next, word};
use crate::said::{
    Defined, Use, ValueType, Written, names_in, same_bytes, type_in, types_in, uses_in,
};
use crate::scope::Scope;
use crate::uses::{note_differing, tys};
use arith_word::CastOp;
use mlir_ir::{Branch, Form, ScopeKind, Terminal, Token, is_same_form};
use std::alloc::{AllocError, Global};

/// Puts the types that stand directly there behind those that were found.
fn add_types(found: &mut Vec<Written>, tokens: &[Token], parts: &[Branch]) -> Result<(), AllocError>
    ensures { OnOk result
        (map written_said found.new.items ≡ map written_said found.old.items
        ++ source.types_in (said tokens.now parts.now)) }
{
    let mut rest = parts;
    'seek: while let Some((part, behind)) = next(tokens, rest) {
        rest = behind;
        if let Part::Line(form, at, inner) = part {
            if is_same_form(Form::TypeName, form) {
                let ty = type_in(tokens, inner);
                found.push(Written { at, ty })?;
            }
        }
    }
    Ok(())
}

/// The result types: one bare type, or those of a list.
pub fn result_types(
    alloc: Global,
    tokens: &[Token],
    parts: &[Branch],
) -> Result<Vec<Written>, AllocError>
    ensures { IfOk result
        (λ v. map written_said v.items ≡ source.result_types (said tokens.now parts.now)) }
{
    let results = inside(tokens, parts, Form::Results);
    let mut found = types_in(alloc, tokens, results)?;
    add_types(&mut found, tokens, inside(tokens, results, Form::Types))?;
    Ok(found)
}

/// The list of one type.
fn one_type(alloc: Global, ty: ValueType) -> Result<Vec<ValueType>, AllocError>
    ensures { IfOk result (λ v. map type_said v.items ≡ type_said ty ∷ []) }
{
    let mut made = Vec::with_capacity(alloc, 1)?;
    made.push(ty)?;
    Ok(made)
}

/// The types of an operation's uses, as written directly behind them.
pub(crate) fn own_types(
    alloc: Global,
    tokens: &[Token],
    kind: &[Branch],
) -> Result<Vec<ValueType>, AllocError>
    ensures { IfOk result
        (λ v. map type_said v.items ≡ resolved.tys (source.types_in (said tokens.now kind.now))) }
{
    let mut found = Vec::new(alloc);
    let mut rest = kind;
    'seek: while let Some((part, behind)) = next(tokens, rest) {
        rest = behind;
        if let Part::Line(form, _, inner) = part {
            if is_same_form(Form::TypeName, form) {
                found.push(type_in(tokens, inner))?;
            }
        }
    }
    Ok(found)
}

/// The types of a cast's results, which stand behind that of its use.
#[tactic(auto, using(crate::proofs::OwnTypes::dropped_types))]
fn cast_types(
    alloc: Global,
    tokens: &[Token],
    kind: &[Branch],
) -> Result<Vec<ValueType>, AllocError>
    ensures { IfOk result
        (λ v. map type_said v.items
        ≡ resolved.tys (drop 1 (source.types_in (said tokens.now kind.now)))) }
{
    let types = types_in(alloc, tokens, kind)?;
    let types = types.as_slice();
    match types.split_first() {
        Some((_, behind)) => tys(alloc, behind),
        None => Ok(Vec::new(alloc)),
    }
}

/// The types of the results of an operation without a list of its own.
pub(crate) fn listed_results(
    alloc: Global,
    tokens: &[Token],
    kind: &[Branch],
) -> Result<Vec<ValueType>, AllocError>
    ensures { IfOk result
        (λ v. map type_said v.items
        ≡ resolved.tys (source.result_types (said tokens.now kind.now))) }
{
    let types = result_types(alloc, tokens, kind)?;
    tys(alloc, &types)
}

/// The types of an operation's results.
#[tactic(auto, using(crate::proofs::OwnTypes::other_types))]
pub fn op_types(
    alloc: Global,
    tokens: &[Token],
    kind: &[Branch],
) -> Result<Vec<ValueType>, AllocError>
    ensures { IfOk result
        (λ v. map type_said v.items
        ≡ resolved.tys
        (source.op_types (source.head (said tokens.now kind.now)) (said tokens.now kind.now))) }
{
    match head(tokens, kind) {
        Terminal::Constant => {
            if has(tokens, kind, Terminal::Truth) {
                one_type(alloc, ValueType::Int(1))
            } else {
                own_types(alloc, tokens, kind)
            }
        }
        Terminal::Compare => one_type(alloc, ValueType::Int(1)),
        Terminal::Binary => own_types(alloc, tokens, kind),
        Terminal::FlaggedBinary => own_types(alloc, tokens, kind),
        Terminal::Select => own_types(alloc, tokens, kind),
        Terminal::Cast => cast_types(alloc, tokens, kind),
        Terminal::FlaggedCast => cast_types(alloc, tokens, kind),
        _ => listed_results(alloc, tokens, kind),
    }
}

/// Notes uses that don't have the first written type.
pub fn note_same(scope: &Scope, uses: &[Use], types: &[Written], first: &mut First)
    ensures { first.new.best
        ≡ noted first.old.best
        (faults.same_written (scope_said scope.now) (map use_said uses.now)
        (map written_said types.now)) }
{
    if let Some(t) = types.first() {
        note_differing(scope, uses, t.ty, first);
    }
}

/// The cast that a word names.
fn cast_named(text: &[u8]) -> CastOp
    ensures { result ≡ resolved.cast_named text.now }
{
    if same_bytes("arith.extsi".as_bytes(), text) {
        CastOp::Extsi
    } else if same_bytes("arith.index_cast".as_bytes(), text) {
        CastOp::IndexCast
    } else if same_bytes("arith.extui".as_bytes(), text) {
        CastOp::Extui
    } else if same_bytes("arith.index_castui".as_bytes(), text) {
        CastOp::IndexCastui
    } else if same_bytes("arith.trunci".as_bytes(), text) {
        CastOp::Trunci
    } else {
        CastOp::Extsi
    }
}

/// Whether a cast leads from the first type to the second.
fn casts(op: CastOp, from: ValueType, to: ValueType) -> bool
    ensures { result ≡ rules.casts op (type_said from) (type_said to) }
{
    match (op, from, to) {
        (CastOp::Extsi, ValueType::Int(a), ValueType::Int(b)) => a < b,
        (CastOp::Extui, ValueType::Int(a), ValueType::Int(b)) => a < b,
        (CastOp::Trunci, ValueType::Int(a), ValueType::Int(b)) => b < a,
        (CastOp::IndexCast, ValueType::Int(_), ValueType::Index) => true,
        (CastOp::IndexCast, ValueType::Index, ValueType::Int(_)) => true,
        (CastOp::IndexCastui, ValueType::Int(_), ValueType::Index) => true,
        (CastOp::IndexCastui, ValueType::Index, ValueType::Int(_)) => true,
        _ => false,
    }
}

/// Whether the type is `index`.
fn is_index(ty: ValueType) -> bool
    ensures { result ≡ faults.is_index (type_said ty) }
{
    match ty {
        ValueType::Index => true,
        ValueType::Int(_) => false,
    }
}

/// Notes what a cast between two written types breaks.
#[tactic(auto, using(crate::proofs::OwnTypes::cast_parts, crate::proofs::Notes::noted_two))]
fn note_pair(tokens: &[Token], kind: &[Branch], from: Written, to: Written, first: &mut First)
    ensures { first.new.best
        ≡ noted first.old.best
        (faults.cast_breaks (said tokens.now kind.now) (written_said from ∷ written_said to ∷ [])) }
{
    let op = cast_named(word(tokens, kind).text);
    let no_index = is_index(from.ty) && !casts(op, ValueType::Index, ValueType::Int(1));
    first.note_if(no_index, from.at, ScopeKind::WrongType);
    let no_cast = !no_index && !casts(op, from.ty, to.ty);
    first.note_if(no_cast, to.at, ScopeKind::WrongType);
}

/// Notes what a cast between the first two written types breaks.
pub fn note_cast(tokens: &[Token], kind: &[Branch], types: &[Written], first: &mut First)
    ensures { first.new.best
        ≡ noted first.old.best
        (faults.cast_breaks (said tokens.now kind.now) (map written_said types.now)) }
{
    if let Some((from, behind)) = types.split_first() {
        if let Some((to, _)) = behind.split_first() {
            note_pair(tokens, kind, *from, *to, first);
        }
    }
}

/// The first values of a loop, with the names that they are given.
#[derive(Drop)]
pub struct Inits<'a> {
    pub names: Vec<Defined<'a>>,
    pub uses: Vec<Use<'a>>,
}

/// The first values of a loop.

pub fn inits_of<'a>(
    alloc: Global,
    tokens: &'a [Token],
    kind: &'a [Branch],
) -> Result<Inits<'a>, AllocError>
    ensures names { IfOk result
        (λ v. map defined_said v.names.items
        ≡ map (λ (p : source.Defined × source.Use). p.0)
        (source.inits_of (said tokens.now kind.now))) }
    ensures uses { IfOk result
        (λ v. map use_said v.uses.items
        ≡ resolved.inits_used (source.inits_of (said tokens.now kind.now))) }
{
    let inits = inside(tokens, kind, Form::Inits);
    let mut names = names_in(alloc, tokens, inits)?;
    let mut uses = uses_in(alloc, tokens, inits)?;
    let many = names.len().min(uses.len());
    names.truncate(many);
    uses.truncate(many);
    Ok(Inits { names, uses })
}
