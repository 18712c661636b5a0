//! For each key the first place in a list where it stands.

ghost use Rattle.std.specs.Prelude.{◌≡◌, ℕ, [], ◌∷◌, ◌++◌, List, length, OnOk};
ghost use Rattle.c_scopes.specs.Firsts.{first_place, HasFirsts};

use kv_base::{NoMemory, Sequence};
use std::alloc::Global;
use std::collections::HashMap;

/// For each key of a list its first place. The list itself is kept elsewhere: keys are added at its end.
#[derive(Drop)]
pub(crate) struct FirstPlaces {
    by_key: HashMap<Vec<u64>, usize>,
}

impl FirstPlaces {
    /// Those of no keys. It takes no memory.
    pub(crate) fn new(alloc: Global) -> FirstPlaces
        ensures { HasFirsts [] result }
    {
        FirstPlaces {
            by_key: HashMap::new(alloc),
        }
    }

    /// The first place of a key.
    pub(crate) fn find(&self, key: &[u64]) -> Option<usize>
        ensures { (keys : List (List ℕ)) → HasFirsts keys self.now → result ≡ first_place keys key.now }
    {
        self.by_key.get(key).copied()
    }

    /// A key is added at the end of the list, at this place. Without memory for it the places are no longer of use.
    pub(crate) fn add(&mut self, key: Sequence<u64>, place: usize) -> Result<(), NoMemory>
        ensures { OnOk result ((keys : List (List ℕ)) → HasFirsts keys self.old → place ≡ length keys → HasFirsts (keys ++ key ∷ []) self.new) }
    {
        if self.find(key.as_slice()).is_some() {
            return Ok(());
        }
        self.by_key.insert(key.into_vec(), place)?;
        Ok(())
    }
}
