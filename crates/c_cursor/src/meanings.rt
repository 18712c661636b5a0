//! What the declared names mean, by name.

ghost use Rattle.std.specs.Prelude.{◌≡◌, [], ◌∷◌, ◌++◌, List, OnOk};
ghost use Rattle.c_tree.specs.declared.scope.Entry.{Entry as Declared};
ghost use Rattle.c_tree.specs.Places.{find_in};
ghost use Rattle.c_cursor.specs.Meanings.{HasMeanings};

use crate::BlockScope;
use c_tree::Entry;
use kv_base::{NoMemory, Stack};
use std::alloc::Global;
use std::collections::HashMap;

/// For each name whether its declarations are of a typedef name, the newest first.
#[derive(Drop)]
pub(crate) struct Meanings {
    alloc: Global,
    by_name: HashMap<Vec<u8>, Stack<bool>>,
}

impl Meanings {
    /// Those of no declarations. It takes no memory.
    pub(crate) fn new(alloc: Global) -> Meanings
        ensures { HasMeanings [] result.by_name }
    {
        Meanings {
            alloc,
            by_name: HashMap::new(alloc),
        }
    }

    /// Whether the newest declaration of a name is of a typedef name.
    pub(crate) fn newest(&self, name: &[u8]) -> Option<bool>
        ensures { (entries : List Declared) → HasMeanings entries self.now.by_name → result ≡ find_in entries name.now }
    {
        match self.by_name.get(name) {
            Some(meanings) => meanings.top().copied(),
            None => None,
        }
    }

    /// Adds a declaration, which is the newest. Without memory for it the meanings are no longer of use.
    pub(crate) fn add(&mut self, entry: &Entry) -> Result<(), NoMemory>
        ensures { OnOk result ((entries : List Declared) → HasMeanings entries self.old.by_name → HasMeanings (entry.now ∷ entries) self.new.by_name) }
    {
        if let Some(meanings) = self.by_name.get_mut(entry.name.as_slice()) {
            return meanings.push(entry.is_type);
        }
        let mut meanings = Stack::new(self.alloc);
        meanings.push(entry.is_type)?;
        let name = Vec::from_slice(self.alloc, entry.name.as_slice())?;
        self.by_name.insert(name, meanings)?;
        Ok(())
    }

    /// Takes the newest declaration away.
    pub(crate) fn remove(&mut self, entry: &Entry)
        ensures { (entries : List Declared) → HasMeanings (entry.now ∷ entries) self.old.by_name → HasMeanings entries self.new.by_name }
    {
        if let Some(meanings) = self.by_name.get_mut(entry.name.as_slice()) {
            let _newest = meanings.pop();
        }
    }

    /// Adds a block's declarations, the newest last.
    pub(crate) fn add_block(&mut self, block: &BlockScope) -> Result<(), NoMemory>
        ensures { OnOk result ((entries : List Declared) → HasMeanings entries self.old.by_name → HasMeanings (block.now ++ entries) self.new.by_name) }
    {
        for entry in block.as_slice() {
            self.add(entry)?;
        }
        Ok(())
    }

    /// Takes a block's declarations away, which are the newest.
    pub(crate) fn remove_block(&mut self, block: &BlockScope)
        ensures { (entries : List Declared) → HasMeanings (block.now ++ entries) self.old.by_name → HasMeanings entries self.new.by_name }
    {
        for entry in block.as_slice().iter().rev() {
            self.remove(entry);
        }
    }
}
