ghost use Rattle.std.specs.Prelude.{ℕ, ◌≡◌, ◌<◌, ◌≤◌, ◌+◌, [], Some, length, slice_get, OnOk, OnErr};
ghost use Rattle.kv_clause.specs.Blocks.{block_at};

use crate::block::{Block, shift};
use crate::blocks::Blocks;
use crate::template::Template;
use kv_base::NoMemory;
use std::alloc::Global;

/// Blocks of its own template, each made when it is first asked for.
#[derive(Drop)]
pub struct PlainBlocks {
    template: Template,
    blocks: u32,
    made: Vec<Block>,
    alloc: Global,
    ghost few: { blocks ≤ 256 },
    ghost row: { (k : ℕ) → k < length made.items → slice_get made.items k ≡ Some (block_at template k) },
}

impl PlainBlocks {
    /// So many blocks of the template, from 1 to 256. It takes no memory.
    pub fn new(alloc: Global, t: Template, blocks: u32) -> PlainBlocks
        requires some { 1 ≤ blocks }
        requires few { blocks ≤ 256 }
        ensures template { result.template ≡ t }
        ensures blocks { result.blocks ≡ blocks }
    {
        PlainBlocks {
            template: t,
            blocks,
            made: Vec::new(alloc),
            alloc,
        }
    }

    // Makes the blocks up to the one at i.
    /// Makes the blocks up to this one, if they aren't made yet.
    fn fill(&mut self, i: u32) -> Result<(), NoMemory>
        requires { i < self.old.blocks }
        ensures template { self.new.template ≡ self.old.template }
        ensures blocks { self.new.blocks ≡ self.old.blocks }
        ensures made { OnOk result (i < length self.new.made.items) }
    {
        while self.made.len() <= i as usize {
            let at = self.made.len() as u32;
            let block = shift(self.alloc, &self.template, at)?;
            self.made.push(block)?;
        }
        Ok(())
    }
}

impl Blocks for PlainBlocks {
    ghost of = { λ b. b.template };

    ghost count = { λ b. b.blocks };

    ghost ready = { λ _. Unit {0} };

    ghost Held = { Unit {0} };

    ghost held = { λ _. tt };

    fn template(&self) -> &Template {
        &self.template
    }

    fn block(&mut self, i: u32) -> Result<&Block, NoMemory> {
        self.fill(i)?;
        Ok(&self.made[i as usize])
    }
}
