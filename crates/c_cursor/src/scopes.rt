//! The declared names, block by block.

ghost use Rattle.std.specs.Prelude.{◌≡◌, [], ◌∷◌, IfOk, OnOk};
ghost use Rattle.c_tree.specs.Places as spec;

use crate::meanings::Meanings;
use c_tree::Entry;
use kv_base::{Bytes, NoMemory, Stack};
use std::alloc::Global;
use std::marker::Model;
use std::mem;

/// The names that one block declares, the newest first.
pub type BlockScope = Stack<Entry>;

/// The names that are declared, the innermost block and the newest declaration first (C11 6.2.1).
#[derive(Drop)]
pub struct Scopes {
    alloc: Global,
    blocks: Stack<BlockScope>,
    meanings: Meanings,
}

impl Model for Scopes {
    ghost use Rattle.std.specs.Prelude.{List};
    ghost use Rattle.c_tree.specs.declared.scope.Entry.{Entry};
    ghost use Rattle.c_cursor.specs.Meanings.{HasMeanings, entries_of};

    ghost Value = { List (List Entry) };

    ghost view = { λ scopes. scopes.blocks };

    ghost invariant = { λ scopes. HasMeanings (entries_of scopes.blocks) scopes.meanings.by_name };
}

impl Scopes {
    /// One block, in which nothing is declared.
    pub fn new(alloc: Global) -> Result<Scopes, NoMemory>
        ensures { IfOk result (λ made. made ≡ [] ∷ []) }
    {
        let mut blocks = Stack::new(alloc);
        blocks.push(Stack::new(alloc))?;
        Ok(Scopes {
            alloc,
            blocks,
            meanings: Meanings::new(alloc),
        })
    }

    /// Whether a name is a typedef name.
    #[tactic(auto, using(crate::proofs::Changes::names_type_is))]
    pub fn names_type(&self, name: &[u8]) -> bool
        ensures { result ≡ spec.names_type self.now name.now }
    {
        self.meanings.newest(name).unwrap_or(false)
    }

    /// Declares a name in the innermost block. Without memory for it the scopes are no longer of use.
    pub fn declare(&mut self, name: Bytes, is_type: bool) -> Result<(), NoMemory>
        ensures { OnOk result (self.new ≡ spec.declared_in self.old name is_type) }
    {
        // Both are put back together at the end, so that a refusal leaves nothing declared.
        let mut blocks = mem::replace(&mut self.blocks, Stack::new(self.alloc));
        let mut meanings = mem::replace(&mut self.meanings, Meanings::new(self.alloc));
        let mut block = take_first(self.alloc, &mut blocks);
        let entry = Entry { name, is_type };
        meanings.add(&entry)?;
        block.push(entry)?;
        blocks.push(block)?;
        self.blocks = blocks;
        self.meanings = meanings;
        Ok(())
    }

    /// A block begins with these names.
    pub fn enter(&mut self, block: BlockScope) -> Result<(), NoMemory>
        ensures { OnOk result (self.new ≡ block ∷ self.old) }
    {
        // Both are put back together at the end, so that a refusal leaves nothing declared.
        let mut blocks = mem::replace(&mut self.blocks, Stack::new(self.alloc));
        let mut meanings = mem::replace(&mut self.meanings, Meanings::new(self.alloc));
        meanings.add_block(&block)?;
        blocks.push(block)?;
        self.blocks = blocks;
        self.meanings = meanings;
        Ok(())
    }

    /// The innermost block ends. It is handed out.
    pub fn leave(&mut self) -> BlockScope
        ensures left { self.new ≡ spec.without_first self.old }
        ensures block { result ≡ spec.first_of self.old }
    {
        let block = take_first(self.alloc, &mut self.blocks);
        self.meanings.remove_block(&block);
        block
    }
}

/// Takes the innermost block out, or makes an empty one where there is none.
fn take_first(alloc: Global, blocks: &mut Stack<BlockScope>) -> BlockScope
    ensures left { blocks.new ≡ spec.without_first blocks.old }
    ensures block { result ≡ spec.first_of blocks.old }
{
    match blocks.pop() {
        Some(block) => block,
        None => Stack::new(alloc),
    }
}
