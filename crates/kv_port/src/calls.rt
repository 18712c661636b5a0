ghost use Rattle.std.specs.Prelude.{◌≡◌, ◌↔◌, IsTrue, Contains};

use kv_base::{Copied, NoMemory, Sequence};
use std::alloc::Global;

/// A method of `Files`.
#[derive(Clone, Copy, Debug, PartialEq, Eq)]
pub enum Call {
    Open,
    Read,
    Create,
    Write,
}

/// The call of this number of one method, counted from 1, fails.
#[derive(Clone, Copy, Debug, PartialEq, Eq)]
pub struct Failing {
    pub call: Call,
    pub number: u32,
}

/// The calls that fail.
pub type Failures = Sequence<Failing>;

impl Copied for Failing {
    fn copy(&self, _alloc: Global) -> Result<Failing, NoMemory> {
        Ok(*self)
    }
}

/// How many calls of each method there were, up to 2^32 - 1, where the count stays.
#[derive(Clone, Copy, Debug, PartialEq, Eq)]
pub(crate) struct Counts {
    opens: u32,
    reads: u32,
    creates: u32,
    writes: u32,
}

/// The calls that were made, and those that fail.
#[derive(Drop)]
pub(crate) struct Calls {
    counts: Counts,
    failing: Failures,
}

impl Counts {
    ghost use Rattle.kv_port.specs.Calls.{counted, number_of};

    // Counts a call, and gives its number.
    /// Counts one more call of a kind, and gives its number, from 1.
    fn count(&mut self, call: Call) -> u32
        ensures counts { self.new ≡ counted self.old call }
        ensures number { result ≡ number_of self.new call }
    {
        match call {
            Call::Open => {
                self.opens = self.opens.saturating_add(1);
                self.opens
            }
            Call::Read => {
                self.reads = self.reads.saturating_add(1);
                self.reads
            }
            Call::Create => {
                self.creates = self.creates.saturating_add(1);
                self.creates
            }
            Call::Write => {
                self.writes = self.writes.saturating_add(1);
                self.writes
            }
        }
    }
}

impl Calls {
    ghost use Rattle.kv_port.specs.Calls.{counted, number_of};

    // No call yet.
    /// No call yet; these are to fail.
    pub(crate) fn new(failing: Failures) -> Calls
        ensures { result ≡ record { counts = record { opens = 0; reads = 0; creates = 0; writes = 0 }; failing = failing } }
    {
        let counts = Counts {
            opens: 0,
            reads: 0,
            creates: 0,
            writes: 0,
        };
        Calls { counts, failing }
    }

    // Counts a call, and says whether it is one of those that fail.
    /// Counts a call, and says whether it is one that is to fail.
    pub(crate) fn fails(&mut self, call: Call) -> bool
        ensures fails { IsTrue result ↔ Contains self.old.failing (record { call = call; number = number_of self.new.counts call }) }
        ensures counts { self.new.counts ≡ counted self.old.counts call }
        ensures failing { self.new.failing ≡ self.old.failing }
    {
        let number = self.counts.count(call);
        self.failing.as_slice().contains(&Failing { call, number })
    }
}
