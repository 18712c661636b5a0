//! Numbers, of which a table tells whether one is among them.

ghost use Rattle.std.specs.Prelude.{◌≡◌, ℕ, [], ◌∷◌, ◌||◌, nat_eq, OnOk};
ghost use Rattle.std.specs.List.{list_any};
ghost use Rattle.c_scopes.specs.Flags.{flag_at};

use kv_base::{NoMemory, Sequence, Stack};
use std::alloc::Global;
use std::marker::Model;
use std::mem;

/// Numbers, the newest first.
#[derive(Drop)]
pub struct NumberSet {
    alloc: Global,
    numbers: Stack<usize>,
    flags: Sequence<bool>,
}

impl Model for NumberSet {
    ghost use Rattle.std.specs.Prelude.{◌≡◌, ℕ, List, nat_eq};
    ghost use Rattle.std.specs.List.{list_any};
    ghost use Rattle.c_scopes.specs.Flags.{flag_at};

    ghost Value = { List ℕ };

    ghost view = { λ set. set.numbers };

    ghost invariant = { λ set. (n : ℕ) → flag_at set.flags n ≡ list_any (λ m. nat_eq m n) set.numbers };
}

impl NumberSet {
    /// No numbers. It takes no memory.
    pub fn new(alloc: Global) -> NumberSet
        ensures { result ≡ [] }
    {
        NumberSet {
            alloc,
            numbers: Stack::new(alloc),
            flags: Sequence::new(alloc),
        }
    }

    /// Whether a number is among them.
    pub fn contains(&self, number: usize) -> bool
        ensures { result ≡ list_any (λ m. nat_eq m number) self.now }
    {
        self.flags.get(number).copied().unwrap_or(false)
    }

    /// Adds a number. Without memory for it no number is left.
    pub fn push(&mut self, number: usize) -> Result<(), NoMemory>
        ensures { OnOk result (self.new ≡ number ∷ self.old) }
    {
        // Both are put back together at the end, so that a refusal leaves no number.
        let mut numbers = mem::replace(&mut self.numbers, Stack::new(self.alloc));
        let mut flags = mem::replace(&mut self.flags, Sequence::new(self.alloc));
        raise(&mut flags, number)?;
        numbers.push(number)?;
        self.numbers = numbers;
        self.flags = flags;
        Ok(())
    }
}

/// Sets the flag of a number. There are flags as far as that, then.
fn raise(flags: &mut Sequence<bool>, number: usize) -> Result<(), NoMemory>
    ensures { OnOk result ((n : ℕ) → flag_at flags.new n ≡ (nat_eq number n || flag_at flags.old n)) }
{
    while flags.len() <= number {
        flags.push(false)?;
    }
    flags.set(number, true);
    Ok(())
}
