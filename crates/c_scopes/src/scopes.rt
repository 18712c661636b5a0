//! The declarations that are in scope.

ghost use Rattle.std.specs.Prelude.{◌≡◌, ◌++◌, IfOk, OnOk};
ghost use Rattle.std.specs.Option.{option_copied};
ghost use Rattle.c_rules.specs.Calls.{is_some};
ghost use Rattle.c_rules.specs.Scopes as spec;

use crate::entries::Entries;
use c_rules::{Declares, ScopeEntry};
use kv_base::{Bytes, NoMemory, Sequence};
use std::alloc::Global;
use std::marker::Model;

/// Declarations of one block, the newest first.
pub type BlockEntries = Sequence<ScopeEntry>;

/// The declarations that are in scope, the newest first, and how many blocks stand around (C11 6.2.1).
#[derive(Drop)]
pub struct Scopes {
    entries: Entries,
    depth: usize,
}

impl Model for Scopes {
    ghost use Rattle.c_rules.specs.Scopes.{Scope};

    ghost Value = { Scope };

    ghost view = { λ scopes. record { entries = scopes.entries; depth = scopes.depth } };
}

impl Scopes {
    /// No declaration, outside all blocks. It takes no memory.
    pub fn new(alloc: Global) -> Scopes
        ensures { result ≡ spec.no_scope }
    {
        Scopes {
            entries: Entries::new(alloc),
            depth: 0,
        }
    }

    /// How many blocks stand around.
    pub fn depth(&self) -> usize
        ensures { result ≡ self.now.depth }
    {
        self.depth
    }

    /// The newest declaration of a name, which hides the others (6.2.1p4).
    pub fn find(&self, name: &[u8]) -> Option<&ScopeEntry>
        ensures { option_copied result ≡ spec.find self.now name.now }
    {
        self.entries.find(name)
    }

    /// The newest declaration of a name, where it stands in the innermost block.
    pub fn find_here(&self, name: &[u8]) -> Option<&ScopeEntry>
        ensures { option_copied result ≡ spec.find_here self.now name.now }
    {
        match self.entries.find(name) {
            Some(entry) if entry.depth == self.depth => Some(entry),
            _ => None,
        }
    }

    /// Whether a name is declared in the innermost block.
    pub fn has_here(&self, name: &[u8]) -> bool
        ensures { result ≡ is_some (spec.find_here self.now name.now) }
    {
        match self.find_here(name) {
            Some(_) => true,
            None => false,
        }
    }

    /// Declares a name in the innermost block. Without memory for it the scopes are no longer of use.
    pub fn declare(&mut self, name: Bytes, declares: Declares) -> Result<(), NoMemory>
        ensures { OnOk result (self.new ≡ spec.declared_in self.old name declares) }
    {
        let depth = self.depth;
        self.entries.push(ScopeEntry {
            name,
            declares,
            depth,
        })
    }

    /// A block begins. Blocks past what a number can count are want of memory.
    pub fn enter(&mut self) -> Result<(), NoMemory>
        ensures { OnOk result (self.new ≡ spec.entered self.old) }
    {
        if self.depth == usize::MAX {
            return Err(NoMemory);
        }
        self.depth += 1;
        Ok(())
    }

    /// A block begins in which these are declared already. Without memory for it the scopes are no longer of use.
    pub fn enter_with(&mut self, block: BlockEntries) -> Result<(), NoMemory>
        ensures { OnOk result (self.new ≡ spec.entered_with block self.old) }
    {
        if self.depth == usize::MAX {
            return Err(NoMemory);
        }
        self.depth += 1;
        add_block(&mut self.entries, block)
    }

    /// The innermost block ends.
    pub fn leave(&mut self)
        ensures { self.new ≡ spec.left self.old }
    {
        drop_block(&mut self.entries, self.depth);
        self.depth = self.depth.saturating_sub(1);
    }

    /// The innermost block ends, and what it declares is handed out. Without memory for it the scopes are no longer of use.
    pub fn take_block(&mut self, alloc: Global) -> Result<BlockEntries, NoMemory>
        ensures left { OnOk result (self.new ≡ spec.left self.old) }
        ensures block { IfOk result (λ block. block ≡ spec.innermost self.old) }
    {
        let block = block_of(alloc, &mut self.entries, self.depth)?;
        self.depth = self.depth.saturating_sub(1);
        Ok(block)
    }
}

/// Adds a block's declarations in front.
fn add_block(entries: &mut Entries, mut block: BlockEntries) -> Result<(), NoMemory>
    ensures { OnOk result (entries.new ≡ block ++ entries.old) }
{
    while let Some(entry) = block.pop() {
        entries.push(entry)?;
    }
    Ok(())
}

/// Takes the declarations of the block at this depth away.
fn drop_block(entries: &mut Entries, depth: usize)
    ensures { entries.new ≡ spec.around_block depth entries.old }
{
    while let Some(_entry) = entries.pop_at(depth) {}
}

/// Takes the declarations of the block at this depth out.
fn block_of(alloc: Global, entries: &mut Entries, depth: usize) -> Result<BlockEntries, NoMemory>
    ensures left { OnOk result (entries.new ≡ spec.around_block depth entries.old) }
    ensures block { IfOk result (λ block. block ≡ spec.of_block depth entries.old) }
{
    let mut block = Sequence::new(alloc);
    while let Some(entry) = entries.pop_at(depth) {
        block.push(entry)?;
    }
    Ok(block)
}
