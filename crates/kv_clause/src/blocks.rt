ghost use Rattle.std.specs.Prelude.{ℕ, ◌≡◌, ◌<◌, ◌≤◌, IfOk, ⊤};
ghost use Rattle.std.specs.Borrow.{sem, follows_so};
ghost use mathlib.Core.Option.{none};
ghost use Rattle.kv_clause.specs.Blocks.{block_at};

use crate::block::Block;
use crate::template::Template;
use kv_base::NoMemory;

/// The blocks of one template, as many as there are.
pub trait Blocks {
    ghost use Rattle.kv_clause.specs.declared.template.Template.{Template as Made};

    ghost of: { Self → Made };

    ghost count: { Self → ℕ };

    // What a value must be for its calls, which no call ends.
    ghost ready: { Self → Type 0 };

    // What a value was made with, which no call changes.
    ghost Held: { Type 0 };

    ghost held: { Self → Held };

    /// The template that the blocks are of.
    fn template(&self) -> &Template
        requires { ready self.now }
        ensures { result.now ≡ of self.now };

    /// Block `i`, below the number of blocks. The template and the number of blocks stay, whatever the answer.
    fn block(&mut self, i: u32) -> Result<&Block, NoMemory>
        requires within { i < count self.old }
        requires ready { ready self.old }
        ensures* after { sem 𝓛 (follows_so Self.row Self.row self.entry.ghost_name none (λ _ _. ⊤) (λ n. (of n ≡ of self.old) × (count n ≡ count self.old) × (held n ≡ held self.old) × ready n)) }
        ensures value { IfOk result (λ b. b.now ≡ block_at (of self.old) i) };
}
