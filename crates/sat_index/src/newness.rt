ghost use Rattle.std.specs.Prelude.{◌≡◌, ◌↔◌, ℕ, ◌+◌, ◌<◌, ◌≤◌, ◌⊎◌, Bool, true, false, length, IsTrue, IfSome, MatchOption};
ghost use Rattle.std.specs.List.{Contains};
ghost use Rattle.sat_clause.specs.Propagation.{clause_at};
ghost use Rattle.sat_engine.specs.Trail.{IsSet};
ghost use Rattle.sat_engine.specs.Look.{InRange, AreInRange};
ghost use Rattle.sat_index.specs.Signature.{all_set, Lacks, IsSignature, IsWithin};
ghost use Rattle.sat_index.specs.Listed.{occurrences_of, IsIndexed, IsEarlier, IsPassed, NoneFlagged};
ghost use Rattle.sat_clause.specs.Propagation.{Includes};

use crate::bucket::Bucket;
use crate::index::{Index, Occurrence};
use crate::signature::signature_of;
use sat_engine::Store;

/// Whether each literal of the clause is flagged.
fn is_flagged(clause: &[u32], flags: &[bool]) -> bool
    requires { InRange clause.now (length flags.now) }
    ensures { IsTrue result ↔ ((m : ℕ) → Contains clause.now m → IsSet flags.now m) }
{
    for m in clause {
        if !flags[*m as usize] {
            return false;
        }
    }
    true
}

/// Flags the literals of a clause.
fn flag(clause: &[u32], flags: &mut [bool])
    requires { InRange clause.now (length flags.old) }
    ensures in_clause { (m : ℕ) → IsSet flags.new m → IsSet flags.old m ⊎ Contains clause.now m }
    ensures all { (m : ℕ) → Contains clause.now m → IsSet flags.new m }
{
    for m in clause {
        flags[*m as usize] = true;
    }
}

/// Unflags the literals of a clause.
fn unflag(clause: &[u32], flags: &mut [bool])
    requires { InRange clause.now (length flags.old) }
    ensures kept { (m : ℕ) → IsSet flags.new m → IsSet flags.old m }
    ensures none { (m : ℕ) → Contains clause.now m → IsSet flags.new m → ⊥ }
{
    for m in clause {
        flags[*m as usize] = false;
    }
}

/// Whether each bit that is unset in the one word is unset in the other.
fn is_within(one: u128, other: u128) -> bool
    ensures { result ≡ false → IsWithin one other → ⊥ }
{
    one & other == other
}

/// Whether each literal of a listed clause is flagged. The bits of flagged literals are unset in the signature.
fn is_found(store: &Store, occurrence: Occurrence, signature: u128, flags: &[bool]) -> bool
    requires range { AreInRange store.now (length flags.now) }
    requires signature { IsWithin all_set signature }
    requires flagged { (m : ℕ) → IsSet flags.now m → Lacks signature m }
    ensures yes { result ≡ true → (occurrence.number < length store.now) × ((m : ℕ) → Contains (clause_at store.now occurrence.number) m → IsSet flags.now m) }
    ensures no { result ≡ false → IsPassed store.now flags.now occurrence }
{
    if !is_within(occurrence.signature, signature) {
        return false;
    }
    if occurrence.number as usize >= store.len() {
        return false;
    }
    is_flagged(store.get(occurrence.number as usize), flags)
}

/// A clause all of whose literals are flagged, among those of a bucket.
fn among(store: &Store, occurrences: &[Occurrence], signature: u128, flags: &[bool]) -> Option<u32>
    requires range { AreInRange store.now (length flags.now) }
    requires signature { IsWithin all_set signature }
    requires flagged { (m : ℕ) → IsSet flags.now m → Lacks signature m }
    ensures { MatchOption result
        (NoneFlagged store.now occurrences.now flags.now)
        (λ i. (i < length store.now) × ((m : ℕ) → Contains (clause_at store.now i) m → IsSet flags.now m)) }
{
    for occurrence in occurrences {
        let occurrence = *occurrence;
        if is_found(store, occurrence, signature, flags) {
            return Some(occurrence.number);
        }
    }
    None
}

/// A clause all of whose literals are flagged, among those under one literal. A bucket is passed over where its word
/// says that there is none.
fn among_buckets(store: &Store, buckets: &[Bucket], signature: u128, flags: &[bool]) -> Option<u32>
    requires range { AreInRange store.now (length flags.now) }
    requires signature { IsWithin all_set signature }
    requires flagged { (m : ℕ) → IsSet flags.now m → Lacks signature m }
    ensures { MatchOption result
        (NoneFlagged store.now (occurrences_of buckets.now) flags.now)
        (λ i. (i < length store.now) × ((m : ℕ) → Contains (clause_at store.now i) m → IsSet flags.now m)) }
{
    for bucket in buckets {
        if !is_within(bucket.joint, signature) {
            continue;
        }
        match among(store, &bucket.occurrences, signature, flags) {
            Some(i) => return Some(i),
            None => {}
        }
    }
    None
}

/// A clause of the store that the given one contains.
fn seek(
    store: &Store,
    index: &Index,
    clause: &[u32],
    signature: u128,
    flags: &[bool],
) -> Option<u32>
    requires range { AreInRange store.now (length flags.now) }
    requires clause { InRange clause.now (length flags.now) }
    requires lists { length index.now ≡ length flags.now }
    requires indexed { IsIndexed store.now index.now }
    requires flagged { (m : ℕ) → Contains clause.now m → IsSet flags.now m }
    requires only { (m : ℕ) → IsSet flags.now m → Contains clause.now m }
    requires signature { IsSignature clause.now signature }
    ensures { IsEarlier store.now clause.now result }
{
    for m in clause {
        match among_buckets(store, index.get(*m as usize), signature, flags) {
            Some(i) => return Some(i),
            None => {}
        }
    }
    None
}

/// A clause of the store that the given one contains. The flags are unset before and after.
pub fn earlier(store: &Store, index: &Index, clause: &[u32], flags: &mut [bool]) -> Option<u32>
    requires range { AreInRange store.now (length flags.old) }
    requires clause { InRange clause.now (length flags.old) }
    requires lists { length index.now ≡ length flags.old }
    requires indexed { IsIndexed store.now index.now }
    requires unset { (m : ℕ) → IsSet flags.old m → ⊥ }
    ensures found { IsEarlier store.now clause.now result }
    ensures unset { (m : ℕ) → IsSet flags.new m → ⊥ }
{
    flag(clause, flags);
    let found = seek(store, index, clause, signature_of(clause), flags);
    unflag(clause, flags);
    found
}
