ghost use Rattle.std.specs.Prelude.{◌≡◌, ◌<◌, [], true, length, IfOk, IsOk, ⊤};
ghost use Rattle.std.specs.Borrow.{sem, follows_so};
ghost use mathlib.Core.Option.{none};
ghost use mir.Syntax.{named};
ghost use Rattle.kv_clause.specs.Blocks.{block_at};
ghost use Rattle.unwind_log.specs.Seats.{has, IsSeatOf};

use crate::cells::{UnwindSeat, Unwinding};
use crate::unwinding::pick;
use kv_base::NoMemory;
use kv_clause::{Block, Blocks, Template};

/// The blocks of an unwinding, as a seat of it reads them.
#[derive(Drop)]
pub struct SeatBlocks<'a> {
    unwinding: &'a Unwinding,
    seat: &'a mut UnwindSeat,
}

impl<'a> SeatBlocks<'a> {
    /// The blocks of this unwinding, of which this is a seat.
    pub fn new(unwinding: &'a Unwinding, seat: &'a mut UnwindSeat) -> SeatBlocks<'a>
        requires seat { IsSeatOf unwinding.now seat.old }
        ensures unwinding { result.unwinding.now ≡ unwinding.now }
        ensures seat { result.seat.now ≡ seat.old }
        ensures lent { result.seat.ghost_name ≡ seat.entry.ghost_name }
    {
        SeatBlocks { unwinding, seat }
    }
}

impl<'a> Blocks for SeatBlocks<'a> {
    ghost use base.Fml.{GName};
    ghost use Rattle.unwind_log.specs.contracts.blocks.SeatBlocks.{the_row};
    ghost use Rattle.unwind_log.specs.declared.cells.Unwinding.{Unwinding as Made};
    ghost use Rattle.unwind_log.specs.Reading.{reader_of};

    ghost of = { λ b. b.unwinding.now.template };

    ghost count = { λ b. length b.unwinding.now.cells.items };

    ghost ready = { λ b. IsSeatOf b.unwinding.now b.seat.now };

    ghost Held = { Made × GName };

    ghost held = { reader_of };

    fn template(&self) -> &Template {
        self.unwinding.template()
    }

    /// Block `i`, below the number of blocks, as `Unwinding::block` gives it.
    fn block(&mut self, i: u32) -> Result<&Block, NoMemory>
        requires within { i < length self.old.unwinding.now.cells.items }
        requires ready { IsSeatOf self.old.unwinding.now self.old.seat.now }
        ensures* after { sem 𝓛 (follows_so (the_row (record { mir = named 1; lft = [] })) (the_row (record { mir = named 1; lft = [] })) self.entry.ghost_name none (λ _ _. ⊤) (λ n.
            (n.unwinding.now.template ≡ self.old.unwinding.now.template)
            × (length n.unwinding.now.cells.items ≡ length self.old.unwinding.now.cells.items)
            × (reader_of n ≡ reader_of self.old)
            × IsSeatOf n.unwinding.now n.seat.now)) }
        ensures value { IfOk result (λ b. b.now ≡ block_at self.old.unwinding.now.template i) }
        ensures free { has i self.old.seat.now.known ≡ true → IsOk result }
    {
        let found = self.unwinding.meet(self.seat, i)?;
        Ok(pick(found, self.seat, i))
    }
}
