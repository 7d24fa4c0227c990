ghost use Rattle.std.specs.Prelude.{◌≡◌, ◌++◌, ◌∷◌, [], map, length, take, OnOk};
ghost use Rattle.std.specs.Option.{option_map};
ghost use Rattle.mlir_ir.specs.Rules.{has_name};
ghost use Rattle.mlir_ir.specs.Resolved.{used, is_of};
ghost use Rattle.mlir_ir.specs.Values.{Value};
ghost use Rattle.mlir_scope.specs.Knowns.{known_said, at_name};
ghost use Rattle.mlir_scope.specs.Reading.{use_said, type_said};

use crate::digits::{CAP, capped};
use crate::said::{Use, ValueType, same_bytes};
use crate::table::Table;
use std::alloc::{AllocError, Global};

/// A value in scope: result `place`, from 0, of a pack whose count has these digits. The label
/// counts from the first value that is defined with it.
#[derive(Clone, Copy)]
pub struct Known<'a> {
    pub label: usize,
    pub name: &'a [u8],
    pub count: &'a [u8],
    pub place: usize,
    pub ty: ValueType,
}

/// Whether the value is used.
#[tactic(auto, using(crate::proofs::Caps::cut_same))]
fn is_used(u: Use, known: &Known) -> bool
    ensures { result ≡ is_of (use_said u.entry) (known_said known.now) }
{
    same_bytes(known.name, u.name) && known.place as u128 == capped(10, u.pick)
}

/// The type of the first value that is used.
#[tactic(auto, using(crate::proofs::Parted::cut_here))]
fn find_in(values: &[Known], u: Use) -> Option<ValueType>
    ensures { option_map type_said result
        ≡ option_map (λ (v : Value). v.ty) (used (map known_said values.now) (use_said u.entry)) }
{
    'seek: for known in values {
        if is_used(u, known) {
            return Some(known.ty);
        }
    }
    None
}

/// The values in scope.
#[derive(Drop)]
pub struct Scope<'a> {
    places: Table<'a>,
    // The same values at place 0, to be found by their names alone.
    names: Table<'a>,
    ghost same: { map known_said names.values.items
        ≡ map at_name (map known_said places.values.items) },
}

impl<'a> Scope<'a> {
    ghost use Rattle.mlir_scope.specs.Scopes.{scope_said, label_named};

    /// No values.
    pub fn new(alloc: Global) -> Scope<'a>
        ensures { scope_said result ≡ [] }
    {
        Scope {
            places: Table::new(alloc),
            names: Table::new(alloc),
        }
    }

    /// How many values are in scope.
    pub fn len(&self) -> usize
        ensures { result ≡ length (scope_said self.now) }
    {
        self.places.len()
    }

    /// Puts a value behind those in scope.
    pub fn push(&mut self, known: Known<'a>) -> Result<(), AllocError>
        ensures { OnOk result
            (scope_said self.new ≡ scope_said self.old ++ known_said known.entry ∷ []) }
    {
        let len = self.places.len();
        self.places.push(known)?;
        let named = Known {
            label: known.label,
            name: known.name,
            count: known.count,
            place: 0,
            ty: known.ty,
        };
        if self.names.push(named).is_err() {
            self.places.truncate(len);
            return Err(AllocError);
        }
        Ok(())
    }

    /// Keeps the first values alone.
    pub fn truncate(&mut self, len: usize)
        ensures { scope_said self.new ≡ take len (scope_said self.old) }
    {
        self.places.truncate(len);
        self.names.truncate(len);
    }

    /// Whether a value has the name.
    pub fn has(&self, name: &[u8]) -> bool
        ensures { result ≡ has_name (scope_said self.now) name.now }
    {
        self.names.find(name, 0).is_some()
    }

    /// The label of the first value that has the name.
    pub fn first_named(&self, name: &[u8]) -> Option<usize>
        ensures { result ≡ label_named name.now (scope_said self.now) }
    {
        match self.names.find(name, 0) {
            Some(known) => Some(known.label),
            None => None,
        }
    }

    /// The type of the value that is used.
    pub fn find(&self, u: Use) -> Option<ValueType>
        ensures { option_map type_said result
            ≡ option_map (λ (v : Value). v.ty) (used (scope_said self.now) (use_said u.entry)) }
    {
        let pick = capped(10, u.pick);
        if pick >= CAP {
            // No value has such a place; the values are passed one by one, to have it proved.
            return find_in(self.places.all(), u);
        }
        match self.places.find(u.name, pick as usize) {
            Some(known) => Some(known.ty),
            None => None,
        }
    }
}
