//! Why a reader gives up.

ghost use Rattle.std.specs.Prelude.{◌≡◌};
ghost use Rattle.c_cursor.specs.declared.fault.Fault.TheVariants as Fault;

use crate::Cursor;
use kv_base::NoMemory;

/// Why a reader gives up.
#[derive(Clone, Copy, Debug, PartialEq, Eq)]
pub enum Fault {
    /// The token of this number can't stand there.
    Syntax { at: usize },
    NoMemory,
}

impl From<NoMemory> for Fault {
    ghost use Rattle.c_cursor.specs.declared.fault.Fault.TheVariants.{NoMemory};

    ghost from_gives = { λ e f. f ≡ NoMemory };

    fn from(_: NoMemory) -> Fault {
        Fault::NoMemory
    }
}

/// The next token can't stand there.
pub fn refuse(place: &Cursor) -> Fault
    ensures { result ≡ Fault.Syntax place.now.at }
{
    Fault::Syntax { at: place.at() }
}
