//! Names, of which it is told by their hash whether one is among them.

ghost use Rattle.std.specs.Prelude.{◌≡◌, [], ◌∷◌, ◌++◌, OnOk};
ghost use Rattle.c_rules.specs.Scopes as spec;

use c_places::Places;
use kv_base::{Bytes, NoMemory, Sequence};
use std::alloc::Global;
use std::marker::Model;
use std::mem;

/// Names, in the order in which they came.
#[derive(Drop)]
pub struct NameSet {
    alloc: Global,
    names: Sequence<Bytes>,
    places: Places,
}

impl Model for NameSet {
    ghost use Rattle.std.specs.Prelude.{ℕ, List, reverse};
    ghost use Rattle.c_places.specs.Standing.{HasPlaces};

    ghost Value = { List (List ℕ) };

    ghost view = { λ set. set.names };

    ghost invariant = { λ set. HasPlaces (reverse set.names) set.places };
}

impl NameSet {
    /// No names. It takes no memory.
    pub fn new(alloc: Global) -> NameSet
        ensures { result ≡ [] }
    {
        NameSet {
            alloc,
            names: Sequence::new(alloc),
            places: Places::new(alloc),
        }
    }

    /// Whether a name is among them.
    pub fn contains(&self, name: &[u8]) -> bool
        ensures { result ≡ spec.is_among name.now self.now }
    {
        self.places.newest(name).is_some()
    }

    /// Adds a name. Without memory for it no name is left.
    pub fn push(&mut self, name: Bytes) -> Result<(), NoMemory>
        ensures { OnOk result (self.new ≡ self.old ++ name ∷ []) }
    {
        // Both are put back together at the end, so that a refusal leaves no name.
        let mut names = mem::replace(&mut self.names, Sequence::new(self.alloc));
        let mut places = mem::replace(&mut self.places, Places::new(self.alloc));
        places.add(name.as_slice(), names.len())?;
        names.push(name)?;
        self.names = names;
        self.places = places;
        Ok(())
    }
}
