ghost use Rattle.std.specs.Prelude.{◌≡◌, true, []};
ghost use Rattle.cancel_word.specs.Word.{has, AreSmall};

use crate::view::{Law, View};
use atomic_table::{Seat, Table};
use std::alloc::Global;

/// The entry that decided, counted from 0.
#[derive(Clone, Copy, Debug, PartialEq, Eq)]
pub struct Decided {
    pub at: u32,
}

/// The word, which threads share by reference.
#[derive(Drop)]
pub struct Cancel {
    pub(crate) table: Table<(), View, u64, Law, Global>,
    ghost one_word: { table.shared.table_id.words ≡ 1 },
    ghost no_slots: { table.shared.table_id.slots ≡ 0 },
}

/// By what one thread reads and sets the word. It holds numbers, one of which is its own.
#[derive(Drop)]
pub struct StopSeat {
    pub(crate) seat: Seat<(), View>,
    pub(crate) own: u64,
    ghost bare: { seat.me.1 ≡ [] },
    ghost holds_own: { has own seat.me.0.numbers ≡ true },
    ghost small: { AreSmall seat.me.0.numbers },
}
