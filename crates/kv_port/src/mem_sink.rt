ghost use Rattle.std.specs.Prelude.{◌≡◌, ◌-◌, ◌≤◌, [], None, Some, length, min, MatchOption};
ghost use Rattle.std.specs.Option.{ForSome};

use crate::causes::raise;
use crate::{Fault, Sink};
use kv_base::Sequence;
use std::alloc::Global;

/// The numbers of the writes that fail, counted from 1.
pub type CallNumbers = Sequence<u32>;

/// A sink in memory, which tells its bytes.
#[derive(Drop)]
pub struct MemSink {
    held: Vec<u8>,
    // the most bytes that it takes in all
    limit: Option<usize>,
    failing: CallNumbers,
    calls: u32,
    faults: u64,
    ghost within_limit: { ForSome limit (λ n. length held.items ≤ n) },
}

impl MemSink {
    ghost use Rattle.kv_port.specs.MemSink.{limit_of, failing_of};

    /// A sink whose writes of these numbers fail.
    pub fn new(alloc: Global, failing: CallNumbers) -> MemSink
        ensures told { ⟦<MemSink as Sink>⟧.told result ≡ Some [] }
        ensures faults { ⟦<MemSink as Sink>⟧.faults result ≡ 0 }
        ensures limit { limit_of result ≡ None }
        ensures failing { failing_of result ≡ failing }
    {
        MemSink {
            held: Vec::new(alloc),
            limit: None,
            failing,
            calls: 0,
            faults: 0,
        }
    }

    /// A sink that takes n bytes in all, and then fails.
    pub fn limited(alloc: Global, n: usize) -> MemSink
        ensures told { ⟦<MemSink as Sink>⟧.told result ≡ Some [] }
        ensures faults { ⟦<MemSink as Sink>⟧.faults result ≡ 0 }
        ensures limit { limit_of result ≡ Some n }
        ensures failing { failing_of result ≡ [] }
    {
        MemSink {
            held: Vec::new(alloc),
            limit: Some(n),
            failing: Sequence::new(alloc),
            calls: 0,
            faults: 0,
        }
    }

    /// The bytes that it holds.
    pub fn bytes(&self) -> &[u8]
        ensures told { ⟦<MemSink as Sink>⟧.told self.now ≡ Some result.now }
        ensures within { ForSome (limit_of self.now) (λ n. length result.now ≤ n) }
    {
        self.held.as_slice()
    }

    // How many of the given number of bytes there is room for.
    /// How many of this many bytes the sink takes.
    fn taken(&self, wanted: usize) -> usize
        ensures { MatchOption self.now.limit (result ≡ wanted) (λ n. result ≡ min wanted (n - length self.now.held.items)) }
    {
        match self.limit {
            None => wanted,
            Some(n) => wanted.min(n - self.held.len()),
        }
    }
}

impl Sink for MemSink {
    ghost told = { λ s. Some s.held.items };

    ghost faults = { λ s. s.faults };

    fn write(&mut self, bytes: &[u8]) -> Result<usize, Fault> {
        self.calls = self.calls.saturating_add(1);
        let count = self.taken(bytes.len());
        let is_taken = 0 < count || bytes.is_empty();
        if is_taken && !self.failing.as_slice().contains(&self.calls) {
            if self.held.extend_from_slice(&bytes[..count]).is_ok() {
                return Ok(count);
            }
        }
        Err(raise(&mut self.faults))
    }
}
