//! For each name the places in a list where it stands.

ghost use Rattle.std.specs.Prelude.{◌≡◌, ℕ, [], ◌∷◌, List, length, OnOk};
ghost use Rattle.c_places.specs.Standing.{newest_place, HasPlaces};

use kv_base::{NoMemory, Stack};
use std::alloc::Global;
use std::collections::HashMap;

/// For each name of a list its places, the newest first. The list itself is kept elsewhere: names are put in front of it and
/// taken away there, and a name's place is how many names stand behind it.
#[derive(Drop)]
pub struct Places {
    alloc: Global,
    by_name: HashMap<Vec<u8>, Stack<usize>>,
}

impl Places {
    /// Those of no names. It takes no memory.
    pub fn new(alloc: Global) -> Places
        ensures { HasPlaces [] result }
    {
        Places {
            alloc,
            by_name: HashMap::new(alloc),
        }
    }

    /// The newest place of a name.
    pub fn newest(&self, name: &[u8]) -> Option<usize>
        ensures { (names : List (List ℕ)) → HasPlaces names self.now → result ≡ newest_place names name.now }
    {
        match self.by_name.get(name) {
            Some(places) => places.top().copied(),
            None => None,
        }
    }

    /// A name is put in front of the list, at this place. Without memory for it the places are no longer of use.
    pub fn add(&mut self, name: &[u8], place: usize) -> Result<(), NoMemory>
        ensures { OnOk result ((names : List (List ℕ)) → HasPlaces names self.old → place ≡ length names → HasPlaces (name.now ∷ names) self.new) }
    {
        if let Some(places) = self.by_name.get_mut(name) {
            return places.push(place);
        }
        let mut places = Stack::new(self.alloc);
        places.push(place)?;
        let key = Vec::from_slice(self.alloc, name)?;
        self.by_name.insert(key, places)?;
        Ok(())
    }

    /// The name in front of the list is taken away.
    pub fn remove(&mut self, name: &[u8])
        ensures { (names : List (List ℕ)) → HasPlaces (name.now ∷ names) self.old → HasPlaces names self.new }
    {
        if let Some(places) = self.by_name.get_mut(name) {
            let _newest = places.pop();
        }
    }
}
