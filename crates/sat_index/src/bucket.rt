ghost use Rattle.std.specs.Prelude.{◌≡◌, [], ◌∷◌, ◌++◌, OnOk};
ghost use Rattle.sat_index.specs.Signature.{AreWithin};

use crate::index::Occurrence;
use kv_base::NoMemory;
use std::alloc::Global;

/// How many occurrences a bucket has at most.
const MOST: usize = 16;

/// Some of a list's occurrences, and a word in which each bit is set that is set in one of their signatures.
#[derive(Drop)]
pub struct Bucket {
    pub occurrences: Vec<Occurrence>,
    pub joint: u128,
    ghost ok: { AreWithin joint occurrences.items },
}

impl Bucket {
    /// No occurrence. It takes no memory.
    pub fn new(alloc: Global) -> Bucket
        ensures { result.occurrences.items ≡ [] }
    {
        Bucket {
            occurrences: Vec::new(alloc),
            joint: 0,
        }
    }

    /// Whether a further occurrence may be put into it.
    pub fn has_room(&self) -> bool {
        self.occurrences.len() < MOST
    }

    /// How many bits are unset in the signatures of all occurrences and in this one.
    pub fn common(&self, signature: u128) -> u32 {
        (self.joint | signature).count_zeros()
    }

    /// Puts an occurrence at the end.
    pub fn put(&mut self, occurrence: Occurrence) -> Result<(), NoMemory>
        ensures { OnOk result (self.new.occurrences.items ≡ self.old.occurrences.items ++ occurrence ∷ []) }
    {
        self.joint |= occurrence.signature;
        self.occurrences.push(occurrence)?;
        Ok(())
    }
}
