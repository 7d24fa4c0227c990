ghost use Rattle.std.specs.Prelude.{ℕ, List, ◌≡◌, ◌++◌, ◌∷◌, [], length, OnOk};
ghost use Rattle.std.specs.List.{list_any};
ghost use Rattle.std.specs.Str.{bytes_eq};
ghost use Rattle.std.specs.HashSet.{contains_by};
ghost use Rattle.pass_copy.specs.Listed.{texts};

use std::alloc::{AllocError, Global};
use std::collections::HashSet;

/// Names, of which one is found in the time of a look-up in a table.
#[derive(Drop)]
pub struct Taken<'f> {
    pub(crate) names: Vec<&'f [u8]>,
    known: HashSet<&'f [u8]>,
    ghost all: { (name : List ℕ) → contains_by (λ key. bytes_eq name key.now) known
        ≡ list_any (λ taken. bytes_eq taken name) (texts names.items) },
}

impl<'f> Taken<'f> {
    /// No names.
    pub(crate) fn new(alloc: Global) -> Taken<'f>
        ensures { texts result.names.items ≡ [] }
    {
        Taken {
            names: Vec::new(alloc),
            known: HashSet::new(alloc),
        }
    }

    /// How many names there are, each as often as it was added.
    pub(crate) fn len(&self) -> usize
        ensures { result ≡ length (texts self.now.names.items) }
    {
        self.names.len()
    }

    /// Whether the name is one of these.
    pub(crate) fn contains(&self, name: &[u8]) -> bool
        ensures { result ≡ list_any (λ taken. bytes_eq taken name.now)
            (texts self.now.names.items) }
    {
        self.known.contains(name)
    }

    /// Adds a name.
    pub(crate) fn push(&mut self, name: &'f [u8]) -> Result<(), AllocError>
        ensures { OnOk result (texts self.new.names.items
            ≡ texts self.old.names.items ++ name.now ∷ []) }
    {
        self.names.push(name)?;
        if self.known.insert(name).is_err() {
            self.names.pop();
            return Err(AllocError);
        }
        Ok(())
    }
}
