ghost use Rattle.std.specs.Prelude.{◌≡◌, ℕ, ◌+◌, ◌<◌, ◌≤◌, List, [], ◌∷◌, ◌++◌, length, slice_index_or, slice_set, OnOk, OnErr};
ghost use Rattle.sat_index.specs.Listed.{occurrences_of, IsPut};

use crate::bucket::Bucket;
use kv_base::NoMemory;
use std::alloc::Global;
use std::marker::Model;

/// A listed clause: its number, and a word in which each of its literals unsets a bit.
#[derive(Clone, Copy, Debug)]
pub struct Occurrence {
    pub number: u32,
    pub signature: u128,
}

/// Entries whose signatures have this many bits unset in common belong into one bucket.
const MUCH: u32 = 5;

/// For each literal a growing list of clauses, in buckets of those that have much in common. Contracts see the lists.
#[derive(Drop)]
pub struct Index {
    alloc: Global,
    lists: Vec<Vec<Bucket>>,
    // how often each literal stood in a clause
    counts: Vec<u64>,
}

/// Counts each literal of a clause.
fn count_each(counts: &mut Vec<u64>, clause: &[u32]) {
    for lit in clause {
        if let Some(count) = counts.get_mut(*lit as usize) {
            *count = count.saturating_add(1);
        }
    }
}

/// The bucket with room whose occurrences have most in common with one of this signature. None where that isn't much, and
/// at least half of the buckets are full.
fn seat(buckets: &[Bucket], signature: u128) -> Option<usize> {
    let mut seat = None;
    let mut most = 0;
    let mut open = 0usize;
    for (at, bucket) in buckets.iter().enumerate() {
        let common = bucket.common(signature);
        if bucket.has_room() && common >= most {
            seat = Some(at);
            most = common;
        }
        open = open.saturating_add(usize::from(bucket.has_room()));
    }
    if most < MUCH && open <= buckets.len() / 2 {
        None
    } else {
        seat
    }
}

/// Puts an occurrence into the bucket that has most in common with it, or into a new one.
fn put_into(
    alloc: Global,
    buckets: &mut Vec<Bucket>,
    occurrence: Occurrence,
) -> Result<(), NoMemory>
    ensures { OnOk result (IsPut (occurrences_of buckets.old.items) occurrence (occurrences_of buckets.new.items)) }
{
    if let Some(at) = seat(buckets, occurrence.signature) {
        if let Some(bucket) = buckets.get_mut(at) {
            return bucket.put(occurrence);
        }
    }
    let mut bucket = Bucket::new(alloc);
    bucket.put(occurrence)?;
    buckets.push(bucket)?;
    Ok(())
}

impl Model for Index {
    ghost use Rattle.std.specs.Prelude.{ℕ, List, map};
    ghost use Rattle.std.specs.declared.vec.Vec.{Vec};
    ghost use Rattle.std.specs.declared.alloc.Global.{Global};
    ghost use Rattle.sat_index.specs.declared.index.Occurrence.{Occurrence};
    ghost use Rattle.sat_index.specs.Listed.{occurrences_of};

    ghost Value = { List (List Occurrence) };

    ghost view = { λ s. map (λ v. occurrences_of v.items) s.lists.items };
}

impl Index {
    /// No lists. It takes no memory.
    pub fn new(alloc: Global) -> Index
        ensures { result ≡ [] }
    {
        Index {
            alloc,
            lists: Vec::new(alloc),
            counts: Vec::new(alloc),
        }
    }

    /// Makes a list for a further literal.
    pub fn grow(&mut self, alloc: Global) -> Result<(), NoMemory>
        ensures { OnOk result (self.new ≡ self.old ++ [] ∷ []) }
    {
        self.counts.push(0)?;
        self.lists.push(Vec::new(alloc))?;
        Ok(())
    }

    /// The buckets whose occurrences are a literal's list.
    pub fn get(&self, lit: usize) -> &[Bucket]
        requires { lit < length self.now }
        ensures { occurrences_of result.now ≡ slice_index_or self.now lit [] }
    {
        self.lists[lit].as_slice()
    }

    /// Lists an occurrence under a literal, once. At which place of the list isn't said.
    pub fn put(&mut self, lit: usize, occurrence: Occurrence) -> Result<(), NoMemory>
        requires { lit < length self.old }
        ensures put { OnOk result (IsPut (slice_index_or self.old lit []) occurrence (slice_index_or self.new lit [])) }
        ensures others { OnOk result (self.new ≡ slice_set self.old lit (slice_index_or self.new lit [])) }
    {
        put_into(self.alloc, &mut self.lists[lit], occurrence)
    }

    /// Counts the literals of a clause.
    pub fn count(&mut self, clause: &[u32])
        ensures { self.new ≡ self.old }
    {
        count_each(&mut self.counts, clause);
    }

    /// How often a literal stood in a clause that was counted.
    pub fn count_of(&self, lit: u32) -> u64 {
        self.counts.get(lit as usize).copied().unwrap_or(0)
    }
}
