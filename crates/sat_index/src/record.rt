ghost use Rattle.std.specs.Prelude.{◌≡◌, ◌+◌, ◌<◌, ◌++◌, ◌∷◌, [], length, IfOk};
ghost use Rattle.sat_engine.specs.Look.{InRange};
ghost use Rattle.sat_index.specs.Listed.{IsIndexed};

use crate::index::{Index, Occurrence};
use crate::signature::signature_of;
use kv_base::NoMemory;
use sat_engine::{Store, Watches};

/// The place of the literal that stood least often in clauses so far.
fn least_common(index: &Index, clause: &[u32]) -> usize
    requires some { 0 < length clause.now }
    ensures { result < length clause.now }
{
    let mut best = 0;
    let mut least = u64::MAX;
    for (i, l) in clause.iter().enumerate() {
        let count = index.count_of(*l);
        if count < least {
            best = i;
            least = count;
        }
    }
    best
}

/// Stores a clause and lists it, and gives its number.
fn list_clause(store: &mut Store, index: &mut Index, clause: &[u32]) -> Result<u32, NoMemory>
    requires some { 0 < length clause.now }
    requires range { InRange clause.now (length index.old) }
    requires indexed { IsIndexed store.old index.old }
    ensures { IfOk result (λ n. (n ≡ length store.old) × (store.new ≡ store.old ++ clause.now ∷ []) × IsIndexed store.new index.new × (length index.new ≡ length index.old) × (length store.new < 4294967296)) }
{
    let Ok(number) = u32::try_from(store.len()) else {
        return Err(NoMemory);
    };
    if number == u32::MAX {
        return Err(NoMemory);
    }
    index.count(clause);
    let under = least_common(index, clause);
    let occurrence = Occurrence {
        number,
        signature: signature_of(clause),
    };
    index.put(clause[under] as usize, occurrence)?;
    store.push(clause)?;
    Ok(number)
}

/// Keeps a clause, which watches the given two of its literals, if any.
pub fn record_clause(
    store: &mut Store,
    watches: &mut Watches,
    index: &mut Index,
    clause: &[u32],
    watched: Option<(u32, u32)>,
) -> Result<u32, NoMemory>
    requires some { 0 < length clause.now }
    requires range { InRange clause.now (length index.old) }
    requires indexed { IsIndexed store.old index.old }
    ensures { IfOk result (λ n. (n ≡ length store.old) × (store.new ≡ store.old ++ clause.now ∷ []) × IsIndexed store.new index.new × (length index.new ≡ length index.old) × (length store.new < 4294967296)) }
{
    let number = list_clause(store, index, clause)?;
    match watched {
        Some((one, two)) => watches.add(store, number, one, two)?,
        None => {}
    }
    Ok(number)
}
