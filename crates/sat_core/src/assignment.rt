ghost use Rattle.std.specs.Prelude.{ℕ, ◌≡◌, ◌*◌, ◌/◌, ◌%◌, ◌<◌, length, slice_index_or, false, IfOk};
ghost use Rattle.sat_core.specs.Finding.{TellsTruth};

use kv_base::{NoMemory, Sequence};
use sat_clause::Assignment;
use std::alloc::Global;

/// The truth of each variable, where `truth` says of each literal whether it is true.
pub fn assignment(alloc: Global, truth: &[bool]) -> Result<Assignment, NoMemory>
    ensures { IfOk result (TellsTruth truth.now) }
{
    let mut made = Sequence::new(alloc);
    for var in 0..truth.len() / 2 {
        made.push(truth[2 * var])?;
    }
    Ok(made)
}
