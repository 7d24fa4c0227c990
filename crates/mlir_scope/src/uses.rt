ghost use Rattle.std.specs.Prelude.{◌≡◌, map, OnOk, IfOk};
ghost use Rattle.std.specs.List.{flat_map};
ghost use Rattle.mlir_ir.specs.Resolved as resolved;
ghost use Rattle.mlir_ir.specs.Rules as rules;
ghost use Rattle.mlir_ir.specs.ScopeFaults as faults;
ghost use Rattle.mlir_scope.specs.Noted.{noted};
ghost use Rattle.mlir_scope.specs.Reading.{use_said, type_said, written_said, defined_said};
ghost use Rattle.mlir_scope.specs.Scopes.{scope_said};

use crate::first::First;
use crate::said::{Use, ValueType, Written};
use crate::scope::Scope;
use mlir_ir::ScopeKind;
use std::alloc::{AllocError, Global};

/// Whether two types are the same.
pub fn is_same_type(a: ValueType, b: ValueType) -> bool
    ensures { result ≡ rules.same_type (type_said a) (type_said b) }
{
    match (a, b) {
        (ValueType::Int(a), ValueType::Int(b)) => a == b,
        (ValueType::Index, ValueType::Index) => true,
        _ => false,
    }
}

/// The types alone.
pub fn tys(alloc: Global, types: &[Written]) -> Result<Vec<ValueType>, AllocError>
    ensures { IfOk result (λ v. map type_said v.items ≡ resolved.tys (map written_said types.now)) }
{
    let mut made = Vec::with_capacity(alloc, types.len())?;
    'each: for t in types {
        made.push(t.ty)?;
    }
    Ok(made)
}

/// Notes what a use breaks, at an operation or terminator whose word has that token.
#[tactic(auto, using(crate::proofs::UsesFound::use_missing))]
pub fn note_use(scope: &Scope, at: u32, u: Use, first: &mut First)
    ensures { first.new.best
        ≡ noted first.old.best (faults.use_breaks (scope_said scope.now) at (use_said u.entry)) }
{
    if scope.find(u).is_some() {
        return;
    }
    let known = scope.has(u.name);
    first.note_if(!known, u.at, ScopeKind::Unknown);
    first.note_if(known, at, ScopeKind::Arity);
}

/// Notes what uses break, at an operation or terminator whose word has that token.
#[tactic(auto, using(crate::proofs::Notes::noted_more))]
pub fn note_uses(scope: &Scope, at: u32, uses: &[Use], first: &mut First)
    ensures { first.new.best
        ≡ noted first.old.best
        (faults.uses_breaks (scope_said scope.now) at (map use_said uses.now)) }
{
    'each: for u in uses {
        note_use(scope, at, *u, first);
    }
}

/// Whether a use has another type.
pub(crate) fn differs(scope: &Scope, u: Use, ty: ValueType) -> bool
    ensures { result ≡ faults.differs (scope_said scope.now) (use_said u.entry) (type_said ty) }
{
    match scope.find(u) {
        Some(found) => !is_same_type(ty, found),
        None => false,
    }
}

/// Notes uses that have another type.
#[tactic(auto, using(crate::proofs::Notes::noted_more))]
pub fn note_differing(scope: &Scope, uses: &[Use], ty: ValueType, first: &mut First)
    ensures { first.new.best
        ≡ noted first.old.best
        (flat_map (λ u. faults.broken
        (faults.differs (scope_said scope.now) u (type_said ty)) u.at ScopeKind.WrongType)
        (map use_said uses.now)) }
{
    'each: for u in uses {
        let other = differs(scope, *u, ty);
        first.note_if(other, u.at, ScopeKind::WrongType);
    }
}

/// Notes uses that don't have the types that belong to them, as far as both lists go.
#[tactic(auto, using(crate::proofs::Notes::noted_more, crate::proofs::Parted::cut_here, crate::proofs::Parted::cut_past))]
pub fn note_types(scope: &Scope, uses: &[Use], types: &[ValueType], first: &mut First)
    ensures { first.new.best
        ≡ noted first.old.best
        (faults.type_breaks (scope_said scope.now) (map use_said uses.now)
        (map type_said types.now)) }
{
    'each: for (i, u) in uses.iter().enumerate() {
        match types.get(i) {
            None => return,
            Some(ty) => {
                let other = differs(scope, *u, *ty);
                first.note_if(other, u.at, ScopeKind::WrongType);
            }
        }
    }
}

/// Notes written types that aren't those that they belong to, as far as both lists go.
#[tactic(auto, using(crate::proofs::Notes::noted_more))]
pub fn note_written(types: &[Written], wanted: &[ValueType], first: &mut First)
    ensures { first.new.best
        ≡ noted first.old.best
        (faults.written_breaks (map written_said types.now) (map type_said wanted.now)) }
{
    let mut rest = types;
    let mut left = wanted;
    'each: while let (Some((t, behind)), Some((ty, others))) = (
        rest.split_first(),
        left.split_first(),
    ) {
        rest = behind;
        left = others;
        let other = !is_same_type(t.ty, *ty);
        first.note_if(other, t.at, ScopeKind::WrongType);
    }
}
