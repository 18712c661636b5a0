//! Declarations, found by their names.

ghost use Rattle.std.specs.Prelude.{◌≡◌, ◌<◌, [], ◌∷◌, ◌++◌, length, slice_get, option_to_list, MatchOption, IfNone, OnOk, OnSome};
ghost use Rattle.std.specs.Option.{option_copied};
ghost use Rattle.c_rules.specs.Scopes as spec;

use c_places::Places;
use c_rules::ScopeEntry;
use kv_base::{NoMemory, Stack};
use std::alloc::Global;
use std::marker::Model;
use std::mem;

/// Declarations, the newest first.
#[derive(Drop)]
pub(crate) struct Entries {
    alloc: Global,
    items: Stack<ScopeEntry>,
    places: Places,
}

impl Model for Entries {
    ghost use Rattle.std.specs.Prelude.{List};
    ghost use Rattle.c_rules.specs.declared.names.ScopeEntry.{ScopeEntry};
    ghost use Rattle.c_places.specs.Standing.{HasPlaces};
    ghost use Rattle.c_scopes.specs.Entries.{names_of};

    ghost Value = { List ScopeEntry };

    ghost view = { λ entries. entries.items };

    ghost invariant = { λ entries. HasPlaces (names_of entries.items) entries.places };
}

impl Entries {
    /// No declaration. It takes no memory.
    pub(crate) fn new(alloc: Global) -> Entries
        ensures { result ≡ [] }
    {
        Entries {
            alloc,
            items: Stack::new(alloc),
            places: Places::new(alloc),
        }
    }

    /// The newest declaration of a name.
    pub(crate) fn find(&self, name: &[u8]) -> Option<&ScopeEntry>
        ensures { option_copied result ≡ spec.find_in self.now name.now }
    {
        match self.places.newest(name) {
            Some(place) => self.items.as_slice().get(place),
            None => None,
        }
    }

    /// The newest declaration.
    pub(crate) fn top(&self) -> Option<&ScopeEntry>
        ensures { option_copied result ≡ slice_get self.now 0 }
    {
        self.items.top()
    }

    /// Adds a declaration, which is the newest. Without memory for it nothing is declared any more.
    pub(crate) fn push(&mut self, entry: ScopeEntry) -> Result<(), NoMemory>
        ensures { OnOk result (self.new ≡ entry ∷ self.old) }
    {
        // Both are put back together at the end, so that a refusal leaves nothing declared.
        let mut items = mem::replace(&mut self.items, Stack::new(self.alloc));
        let mut places = mem::replace(&mut self.places, Places::new(self.alloc));
        places.add(entry.name.as_slice(), items.len())?;
        items.push(entry)?;
        self.items = items;
        self.places = places;
        Ok(())
    }

    /// Takes the newest declaration away.
    pub(crate) fn pop(&mut self) -> Option<ScopeEntry>
        ensures { MatchOption result ((self.old ≡ []) × (self.new ≡ [])) (λ top. self.old ≡ top ∷ self.new) }
    {
        match self.items.pop() {
            Some(entry) => {
                self.places.remove(entry.name.as_slice());
                Some(entry)
            }
            None => None,
        }
    }

    /// Takes the newest declaration away where it stands at this depth.
    pub(crate) fn pop_at(&mut self, depth: usize) -> Option<ScopeEntry>
        ensures around { spec.around_block depth self.new ≡ spec.around_block depth self.old }
        ensures block { option_to_list result ++ spec.of_block depth self.new ≡ spec.of_block depth self.old }
        ensures done { IfNone result ((spec.around_block depth self.new ≡ self.new) × (spec.of_block depth self.new ≡ [])) }
        ensures shorter { OnSome result (length self.new < length self.old) }
    {
        match self.top() {
            Some(entry) => {
                if entry.depth != depth {
                    return None;
                }
            }
            None => return None,
        }
        self.pop()
    }
}
