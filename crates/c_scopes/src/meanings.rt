//! The table of meanings, by token number.

ghost use Rattle.std.specs.Prelude.{◌≡◌, ◌<◌, length, OnOk};
ghost use Rattle.c_rules.specs.declared.names.Meaning.{Meaning as Stands};
ghost use Rattle.c_rules.specs.Scopes as spec;

use c_rules::Meaning;
use kv_base::{NoMemory, Sequence};

/// Puts a meaning in a table by token number, which grows as far as that.
pub(crate) fn put_at(
    table: &mut Sequence<Option<Meaning>>,
    at: usize,
    meaning: Meaning,
) -> Result<(), NoMemory>
    ensures { OnOk result (table.new ≡ spec.put_at table.old at meaning) }
{
    grow(table, at)?;
    table.set(at, Some(meaning));
    Ok(())
}

/// A table has a row for this number, then. What isn't there is None.
fn grow(table: &mut Sequence<Option<Meaning>>, at: usize) -> Result<(), NoMemory>
    ensures within { OnOk result (at < length table.new) }
    ensures same { OnOk result ((meaning : Stands) → spec.put_at table.new at meaning ≡ spec.put_at table.old at meaning) }
{
    while table.len() <= at {
        table.push(None)?;
    }
    Ok(())
}
