ghost use Rattle.std.specs.Prelude.{ℕ, ◌≡◌, ◌≢◌, ◌≤◌, ◌<◌, ◌+◌, true, [], length, IfOk, OnOk, OnErr, IsOk, IsSome, IsSomeAnd, Some, MatchOption, ⊤};
ghost use Rattle.std.specs.Borrow.{sem};
ghost use Rattle.once_cell.specs.Once.{cell_name};
ghost use Rattle.kv_clause.specs.Blocks.{block_at};
ghost use Rattle.unwind_log.specs.Seats.{has, known_after, counted, own_of, Fits as FitsPlace, IsSeatOf};
ghost use Rattle.unwind_log.specs.Ends.{Met, EndsMet};

use crate::cells::{Indices, Place, UnwindSeat, Unwinding};
use crate::same::is_block;
use kv_base::{NoMemory, Sequence};
use kv_clause::{Block, Template, shift};
use once_cell::race::{Note, OnceBox};
use std::alloc::Global;

impl Unwinding {
    /// So many empty cells for blocks of the template, from 1 to 256.
    pub fn new(alloc: Global, t: Template, blocks: u32) -> Result<Unwinding, NoMemory>
        requires some { 1 ≤ blocks }
        requires few { blocks ≤ 256 }
        ensures template { IfOk result (λ u. u.template ≡ t) }
        ensures blocks { IfOk result (λ u. length u.cells.items ≡ blocks) }
    {
        let mut cells = Vec::new(alloc);
        for _ in 0..blocks {
            cells.push(OnceBox::new(alloc))?;
        }
        Ok(Unwinding {
            template: t,
            cells,
            alloc,
        })
    }

    /// The template that the blocks are of.
    pub fn template(&self) -> &Template
        ensures { result.now ≡ self.now.template }
    {
        &self.template
    }

    /// A seat that knows no block yet.
    pub fn seat(&self) -> Result<UnwindSeat, NoMemory>
        ensures seat { IfOk result (λ s. IsSeatOf self.now s) }
        ensures known { IfOk result (λ s. s.known ≡ []) }
        ensures built { IfOk result (λ s. s.built ≡ 0) }
    {
        let mut places = Sequence::new(self.alloc);
        for cell in self.cells.as_slice() {
            places.push(Place {
                note: cell.note(),
                met: false,
                own: None,
            })?;
        }
        Ok(UnwindSeat {
            places: places.into_vec(),
            known: Sequence::new(self.alloc),
            built: 0,
        })
    }

    /// Block `i`, below the number of blocks, which is built where the cell is empty. For a block that the seat knows it
    /// takes no memory.
    pub fn block<'a>(&'a self, seat: &'a mut UnwindSeat, i: u32) -> Result<&'a Block, NoMemory>
        requires within { i < length self.now.cells.items }
        requires seat { IsSeatOf self.now seat.old }
        ensures value { IfOk result (λ b. b.now ≡ block_at self.now.template i) }
        ensures free { has i seat.old.known ≡ true → IsOk result }
    {
        seat.block(self, i)
    }

    /// Lets the seat meet block `i`, and gives the cell's where that is the right one.
    pub(crate) fn meet<'a>(
        &'a self,
        seat: &mut UnwindSeat,
        i: u32,
    ) -> Result<Option<&'a Block>, NoMemory>
        requires within { i < length self.now.cells.items }
        requires seat { IsSeatOf self.now seat.old }
        ensures met { Met self.now seat.old i result seat.new }
        ensures value { IfOk result (λ o. MatchOption o (IsSomeAnd (own_of seat.new i) (λ b. b ≡ block_at self.now.template i)) (λ b. b.now ≡ block_at self.now.template i)) }
        ensures free { has i seat.old.known ≡ true → IsOk result }
    {
        let at = i as usize;
        let UnwindSeat {
            places,
            known,
            built,
        } = seat;
        self.meet_place(&self.cells[at], &mut places[at], known, built, i)
    }

    /// The same, on the parts of the seat.
    fn meet_place<'a>(
        &'a self,
        cell: &'a OnceBox<Block>,
        place: &mut Place,
        known: &mut Indices,
        built: &mut u32,
        i: u32,
    ) -> Result<Option<&'a Block>, NoMemory>
        requires few { i ≤ 255 }
        requires place { FitsPlace self.now.template known.old i cell.now place.old }
        ensures place { FitsPlace self.now.template known.new i cell.now place.new }
        ensures others { (j : ℕ) → j ≢ i → has j known.new ≡ has j known.old }
        ensures known { OnOk result (known.new ≡ known_after i known.old) }
        ensures unknown { OnErr result (known.new ≡ known.old) }
        ensures built { has i known.old ≡ true → built.new ≡ built.old }
        ensures least { built.old ≤ built.new }
        ensures most { built.new ≤ built.old + 2 }
        ensures value { IfOk result (λ o. MatchOption o (IsSomeAnd place.new.own (λ b. b ≡ block_at self.now.template i)) (λ b. b.now ≡ block_at self.now.template i)) }
        ensures free { has i known.old ≡ true → IsOk result }
    {
        if place.met {
            if place.own.is_some() {
                return Ok(None);
            }
            return Ok(cell.get_as(&mut place.note));
        }
        let block = self.find(cell, &mut place.note, built, i)?;
        if is_block(&self.template, i, block) {
            known.push(i)?;
            place.met = true;
            place.own = None;
            return Ok(Some(block));
        }
        let own = self.build(built, i)?;
        known.push(i)?;
        place.met = true;
        place.own = Some(own);
        Ok(None)
    }

    /// What the cell holds, which is set where it is empty.
    fn find<'a>(
        &self,
        cell: &'a OnceBox<Block>,
        note: &mut Note<Block>,
        built: &mut u32,
        i: u32,
    ) -> Result<&'a Block, NoMemory>
        requires few { i ≤ 255 }
        requires cell { note.old.cell ≡ cell_name cell.now }
        ensures cell { note.new.cell ≡ note.old.cell }
        ensures value { IfOk result (λ b. note.new.known ≡ Some b.now) }
        ensures least { built.old ≤ built.new }
        ensures most { built.new ≤ built.old + 1 }
    {
        if let Some(block) = cell.get_as(note) {
            return Ok(block);
        }
        let made = Box::new(self.alloc, self.build(built, i)?)?;
        let _ = cell.set_as(made, note);
        match cell.get_as(note) {
            Some(block) => Ok(block),
            None => unreachable!(),
        }
    }

    /// Builds block `i`, and counts it.
    fn build(&self, built: &mut u32, i: u32) -> Result<Block, NoMemory>
        requires { i ≤ 255 }
        ensures block { IfOk result (λ b. b ≡ block_at self.now.template i) }
        ensures counted { OnOk result (built.new ≡ counted built.old) }
        ensures uncounted { OnErr result (built.new ≡ built.old) }
        ensures least { built.old ≤ built.new }
        ensures most { built.new ≤ built.old + 1 }
    {
        let made = shift(self.alloc, &self.template, i)?;
        *built = built.saturating_add(1);
        Ok(made)
    }
}

impl UnwindSeat {
    /// Block `i` of the unwinding of which this is a seat, as `Unwinding::block` gives it. Once the block is let go, the
    /// seat knows it and all that it knew before, and has built at most two blocks more.
    pub fn block<'a>(&'a mut self, unwinding: &'a Unwinding, i: u32) -> Result<&'a Block, NoMemory>
        requires within { i < length unwinding.now.cells.items }
        requires seat { IsSeatOf unwinding.now self.old }
        ensures* after { sem 𝓛 (EndsMet unwinding.now self.entry i result) }
        ensures value { IfOk result (λ b. b.now ≡ block_at unwinding.now.template i) }
        ensures free { has i self.old.known ≡ true → IsOk result }
    {
        let found = unwinding.meet(self, i)?;
        Ok(pick(found, self, i))
    }
}

/// The block that was found, or else the seat's own.
pub(crate) fn pick<'a>(found: Option<&'a Block>, seat: &'a UnwindSeat, i: u32) -> &'a Block
    requires { MatchOption found (IsSome (own_of seat.now i)) (λ _. ⊤) }
    ensures { MatchOption found.entry (own_of seat.now i ≡ Some result.now) (λ b. result.now ≡ b.now) }
{
    if let Some(block) = found {
        return block;
    }
    match &seat.places[i as usize].own {
        Some(block) => block,
        None => unreachable!(),
    }
}
