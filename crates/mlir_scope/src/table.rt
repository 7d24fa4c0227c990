ghost use Rattle.std.specs.Prelude.{◌≡◌, ◌-◌, ◌<◌, ◌∷◌, ◌++◌, [], find, length, take, map, OnOk, OnErr};
ghost use Rattle.std.specs.Option.{option_map};
ghost use Rattle.mlir_scope.specs.InScope.{is_named};
ghost use Rattle.mlir_scope.specs.Knowns.{known_said, HasFirst};

use crate::scope::Known;
use std::alloc::{AllocError, Global};
use std::collections::HashMap;

/// Values in the order in which they were pushed. A value is found by its name and its place in the
/// time of a look-up in a table.
#[derive(Drop)]
pub struct Table<'a> {
    values: Vec<Known<'a>>,
    // The index of the first value of a name and a place.
    first: HashMap<(&'a [u8], usize), usize>,
    ghost found: { HasFirst first values.items },
}

impl<'a> Table<'a> {
    /// No values.
    pub fn new(alloc: Global) -> Table<'a>
        ensures { map known_said result.values.items ≡ [] }
    {
        Table {
            values: Vec::new(alloc),
            first: HashMap::new(alloc),
        }
    }

    /// How many values are in scope.
    pub fn len(&self) -> usize
        ensures { result ≡ length self.now.values.items }
    {
        self.values.len()
    }

    /// The values in the order in which they were pushed.
    pub fn all(&self) -> &[Known<'a>]
        ensures { result.now ≡ self.now.values.items }
    {
        self.values.as_slice()
    }

    /// The first value with that name and place.
    #[tactic(auto, using(crate::proofs::FirstPlaces::find_at_position, crate::proofs::FirstPlaces::find_none))]
    pub fn find(&self, name: &[u8], place: usize) -> Option<Known<'a>>
        ensures { option_map known_said result
            ≡ find (is_named name.now place) (map known_said self.now.values.items) }
    {
        match self.first.get(&(name, place)) {
            Some(index) => self.values.as_slice().get(*index).copied(),
            None => None,
        }
    }

    /// Adds a value behind the others.
    pub fn push(&mut self, value: Known<'a>) -> Result<(), AllocError>
        ensures pushed { OnOk result
            (map known_said self.new.values.items ≡ map known_said self.old.values.items
            ++ known_said value.entry ∷ []) }
        ensures failed { OnErr result
            (map known_said self.new.values.items ≡ map known_said self.old.values.items) }
    {
        let index = self.values.len();
        let key = (value.name, value.place);
        self.values.push(value)?;
        if self.first.get(&key).is_some() {
            return Ok(());
        }
        if self.first.insert(key, index).is_err() {
            self.values.pop();
            return Err(AllocError);
        }
        Ok(())
    }

    /// Takes the last value out of scope.
    fn pop(&mut self)
        requires { 0 < length self.old.values.items }
        ensures { self.new.values.items
            ≡ take (length self.old.values.items - 1) self.old.values.items }
    {
        if let Some(value) = self.values.pop() {
            let key = (value.name, value.place);
            if self.first.get(&key).copied() == Some(self.values.len()) {
                self.first.remove(&key);
            }
        }
    }

    /// Takes the values out of scope that came behind the first `len`.
    pub fn truncate(&mut self, len: usize)
        ensures { self.new.values.items ≡ take len self.old.values.items }
    {
        while len < self.values.len() {
            self.pop();
        }
    }
}
