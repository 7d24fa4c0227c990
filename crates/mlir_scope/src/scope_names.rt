ghost use Rattle.std.specs.Prelude.{◌≡◌, ◌-◌, ◌<◌, ◌∷◌, ◌++◌, [], find, length, take, map, OnOk, OnErr};
ghost use Rattle.std.specs.Option.{option_map};
ghost use Rattle.mlir_scope.specs.InScope.{value_of, is_named, AreFirst};

use crate::said::ValueType;
use std::alloc::{AllocError, Global};
use std::collections::HashMap;

/// A value with its label: result `place`, from 0, of the results that are defined together with
/// that name; the digits of their number.
#[derive(Clone, Copy)]
pub struct Named<'a> {
    pub label: u32,
    pub name: &'a [u8],
    pub count: &'a [u8],
    pub place: u32,
    pub ty: ValueType,
}

/// The values in scope, in the order in which they were pushed. A value is found by its name and
/// its place in the time of a look-up in a table.
#[derive(Drop)]
pub struct ScopeNames<'a> {
    values: Vec<Named<'a>>,
    // The index of the first value of a name and a place.
    first: HashMap<(&'a [u8], u32), usize>,
    ghost found: { AreFirst first values.items },
}

impl<'a> ScopeNames<'a> {
    /// No values.
    pub fn new(alloc: Global) -> ScopeNames<'a>
        ensures { map value_of result.values.items ≡ [] }
    {
        ScopeNames {
            values: Vec::new(alloc),
            first: HashMap::new(alloc),
        }
    }

    /// How many values are in scope.
    pub fn len(&self) -> usize
        ensures { result ≡ length self.now.values.items }
    {
        self.values.len()
    }

    /// The values in the order in which they were pushed.
    pub fn as_slice(&self) -> &[Named<'a>]
        ensures { result.now ≡ self.now.values.items }
    {
        self.values.as_slice()
    }

    /// The first value with that name and place.
    #[tactic(auto, using(crate::proofs::FirstPlaces::find_at_position, crate::proofs::FirstPlaces::find_none))]
    pub fn find(&self, name: &[u8], place: u32) -> Option<Named<'a>>
        ensures { option_map value_of result
            ≡ find (is_named name.now place) (map value_of self.now.values.items) }
    {
        match self.first.get(&(name, place)) {
            Some(index) => self.values.as_slice().get(*index).copied(),
            None => None,
        }
    }

    /// Adds a value behind the others.
    pub fn push(&mut self, value: Named<'a>) -> Result<(), AllocError>
        ensures pushed { OnOk result
            (map value_of self.new.values.items ≡ map value_of self.old.values.items
            ++ value_of value.entry ∷ []) }
        ensures failed { OnErr result
            (map value_of self.new.values.items ≡ map value_of self.old.values.items) }
    {
        let index = self.values.len();
        let key = (value.name, value.place);
        self.values.push(value)?;
        if self.first.get(&key).is_some() {
            return Ok(());
        }
        if self.first.insert(key, index).is_err() {
            self.values.pop();
            return Err(AllocError);
        }
        Ok(())
    }

    /// Takes the last value out of scope.
    fn pop(&mut self)
        requires { 0 < length self.old.values.items }
        ensures { self.new.values.items
            ≡ take (length self.old.values.items - 1) self.old.values.items }
    {
        if let Some(value) = self.values.pop() {
            let key = (value.name, value.place);
            if self.first.get(&key).copied() == Some(self.values.len()) {
                self.first.remove(&key);
            }
        }
    }

    /// Takes the values out of scope that came behind the first `len`.
    pub fn truncate(&mut self, len: usize)
        ensures { self.new.values.items ≡ take len self.old.values.items }
    {
        while len < self.values.len() {
            self.pop();
        }
    }
}
