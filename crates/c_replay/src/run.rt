//! Runs of the machine.

ghost use Rattle.std.specs.Prelude.{IfOk};
ghost use Rattle.c_straight_model.specs.Machine.{Comes};
ghost use Rattle.c_replay.specs.RunEnd.{answer_of};

use crate::machine::Machine;
use c_straight_model::{CheckKind, Program};
use kv_base::NoMemory;
use std::alloc::Global;

/// How an execution ends.
#[derive(Clone, Copy, Debug, PartialEq, Eq)]
pub enum RunEnd {
    /// It broke this check at this line.
    Broken { check: CheckKind, line: u32 },
    /// It came to its end with every check met.
    Ended,
}

/// Runs a straight program on these inputs, of which it takes none, until its execution ends.
pub fn replay(alloc: Global, program: &Program, inputs: &[u64]) -> Result<RunEnd, NoMemory>
    ensures { IfOk result (λ end. Comes program.now inputs.now (answer_of end)) }
{
    let mut machine = Machine::start(alloc, program, inputs)?;
    loop {
        if let Some(end) = machine.step()? {
            return Ok(end);
        }
    }
}
