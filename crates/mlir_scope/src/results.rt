ghost use Rattle.std.specs.Prelude.{◌≡◌, ◌≤◌, ◌<◌, ◌+◌, ◌^◌, ◌++◌, ◌==◌, min, map, length, take, drop, OnOk, IfOk};
ghost use Rattle.std.specs.List.{list_any};
ghost use Rattle.mlir_ir.specs.Resolved.{packs_of};
ghost use Rattle.mlir_ir.specs.ScopeFaults as faults;
ghost use Rattle.mlir_ir.specs.Source as source;
ghost use Rattle.mlir_ir.specs.Values as values;
ghost use Rattle.mlir_scope.specs.Noted.{noted};
ghost use Rattle.mlir_scope.specs.Reading.{packed_said, defined_said, type_said};
ghost use Rattle.mlir_scope.specs.Scopes.{scope_said};
ghost use Rattle.mlir_scope.specs.Arguments.{named, pack_of};

use crate::digits::{CAP, capped};
use crate::first::First;
use crate::names::{note_one, note_repeated};
use crate::said::{Defined, Packed, ValueType};
use crate::scope::{Known, Scope};
use mlir_ir::ScopeKind;
use mlir_ir::limits::RESULT_LIMIT;
use std::alloc::{AllocError, Global};

/// The number of results of a pack, cut at `CAP`.
fn count_of(pack: Packed) -> u128
    ensures value { result ≡ min (packed_said pack.entry).count CAP }
    ensures most { result ≤ CAP }
{
    capped(10, pack.count)
}

/// The number of results of packs, cut at `CAP`.
#[tactic(auto, using(crate::proofs::Parted::cut_here))]
pub fn total(packs: &[Packed]) -> u128
    ensures value { result ≡ min (faults.total (map packed_said packs.now)) CAP }
    ensures most { result ≤ CAP }
{
    let mut sum = 0;
    'each: for pack in packs {
        sum = (sum + count_of(*pack)).min(CAP);
    }
    sum
}

/// Whether a pack has no results.
#[tactic(auto, using(crate::proofs::Parted::cut_here))]
fn has_empty(packs: &[Packed]) -> bool
    ensures { result ≡ list_any (λ (p : source.Packed). p.count == 0) (map packed_said packs.now) }
{
    'each: for pack in packs {
        if count_of(*pack) == 0 {
            return true;
        }
    }
    false
}

/// Notes the packs with which an operation has too many results.
#[tactic(auto, using(crate::proofs::Notes::noted_more, crate::proofs::Parted::cut_here))]
fn note_many(packs: &[Packed], first: &mut First)
    ensures { first.new.best
        ≡ noted first.old.best (faults.many_results 0 (map packed_said packs.now)) }
{
    let mut sum: u128 = 0;
    'each: for pack in packs {
        sum = (sum + count_of(*pack)).min(CAP);
        first.note_if(sum > RESULT_LIMIT as u128, pack.at, ScopeKind::Limit);
    }
}

/// The names of packs.
fn pack_names<'a>(alloc: Global, packs: &[Packed<'a>]) -> Result<Vec<Defined<'a>>, AllocError>
    ensures { IfOk result
        (λ v. map defined_said v.items
        ≡ map (λ (p : source.Packed). record { at = p.at; name = p.name })
        (map packed_said packs.now)) }
{
    let mut made = Vec::with_capacity(alloc, packs.len())?;
    'each: for pack in packs {
        made.push(Defined {
            at: pack.at,
            name: pack.name,
        })?;
    }
    Ok(made)
}

/// Notes packs whose names are in scope, or that an earlier one of them has.
fn note_pack_names<'a>(
    alloc: Global,
    scope: &mut Scope<'a>,
    packs: &[Packed<'a>],
    first: &mut First,
) -> Result<(), AllocError>
    ensures noted { OnOk result
        (first.new.best
        ≡ noted first.old.best
        (faults.repeated (faults.names_of (scope_said scope.old))
        (map (λ (p : source.Packed). record { at = p.at; name = p.name })
        (map packed_said packs.now)))) }
    ensures kept { OnOk result (scope_said scope.new ≡ scope_said scope.old) }
{
    match packs {
        [] => Ok(()),
        [pack] => {
            let name = Defined {
                at: pack.at,
                name: pack.name,
            };
            note_one(scope, name, first);
            Ok(())
        }
        _ => {
            let names = pack_names(alloc, packs)?;
            note_repeated(scope, &names, first)
        }
    }
}

/// Notes what the packs of an operation with so many results break; `at` is its word.
#[tactic(auto, using(crate::proofs::Notes::noted_three))]
pub fn note_packs<'a>(
    alloc: Global,
    scope: &mut Scope<'a>,
    at: u32,
    results: usize,
    packs: &[Packed<'a>],
    first: &mut First,
) -> Result<(), AllocError>
    ensures noted { OnOk result
        (first.new.best
        ≡ noted first.old.best
        (faults.packs_breaks (scope_said scope.old) at results (map packed_said packs.now))) }
    ensures kept { OnOk result (scope_said scope.new ≡ scope_said scope.old) }
{
    note_pack_names(alloc, scope, packs, first)?;
    note_many(packs, first);
    let uneven = total(packs) != results as u128 || has_empty(packs);
    first.note_if(uneven, at, ScopeKind::Arity);
    Ok(())
}

/// Puts the results of one pack in scope, from that label on.
fn push_pack<'a>(
    scope: &mut Scope<'a>,
    at: usize,
    pack: Packed<'a>,
    types: &[ValueType],
) -> Result<(), AllocError>
    requires { at + length types.now < 2 ^ 64 }
    ensures { OnOk result
        (scope_said scope.new ≡ scope_said scope.old
        ++ values.pack_values at (pack_of (packed_said pack.entry)) 0 (map type_said types.now)) }
{
    'each: for (place, ty) in types.iter().enumerate() {
        scope.push(Known {
            label: at + place,
            name: pack.name,
            count: pack.count,
            place,
            ty: *ty,
        })?;
    }
    Ok(())
}

/// How many of the types that are left the pack takes.
pub(crate) fn share(pack: Packed, left: usize) -> usize
    requires { left < CAP }
    ensures { result ≡ min (packed_said pack.entry).count left }
{
    count_of(pack).min(left as u128) as usize
}

/// So many types from that place on.
pub(crate) fn part(types: &[ValueType], at: usize, many: usize) -> &[ValueType]
    requires { at + many ≤ length types.now }
    ensures { result.now ≡ take many (drop at types.now) }
{
    &types[at..at + many]
}

/// Puts the results of an operation in scope.
pub fn push_results<'a>(
    scope: &mut Scope<'a>,
    packs: &[Packed<'a>],
    types: &[ValueType],
) -> Result<(), AllocError>
    ensures { OnOk result
        (scope_said scope.new ≡ scope_said scope.old
        ++ values.result_values 0 (packs_of (map packed_said packs.now))
        (map type_said types.now)) }
{
    let mut at = 0;
    'each: for pack in packs {
        let many = share(*pack, types.len() - at);
        push_pack(scope, at, *pack, part(types, at, many))?;
        at += many;
    }
    Ok(())
}

/// Puts arguments in scope: names with their types, as far as both lists go, from that label on.
pub fn push_args<'a>(
    scope: &mut Scope<'a>,
    at: usize,
    names: &[Defined<'a>],
    types: &[ValueType],
) -> Result<(), AllocError>
    requires { at + length names.now < 2 ^ 64 }
    ensures { OnOk result
        (scope_said scope.new ≡ scope_said scope.old
        ++ values.arg_values at (named (map defined_said names.now) (map type_said types.now))) }
{
    'each: for (i, name) in names.iter().enumerate() {
        match types.get(i) {
            None => return Ok(()),
            Some(ty) => scope.push(Known {
                label: at + i,
                name: name.name,
                count: "1".as_bytes(),
                place: 0,
                ty: *ty,
            })?,
        }
    }
    Ok(())
}
