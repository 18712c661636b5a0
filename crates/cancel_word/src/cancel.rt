ghost use Rattle.std.specs.Prelude.{ℕ, ◌≡◌, ◌≢◌, ◌≤◌, ◌+◌, ◌^◌, true, false, IfOk, IsTrue, IsFalse};
ghost use Rattle.cancel_word.specs.Word.{has, first_view, loaded, won, lost, kept_back, given, united};
ghost use Rattle.cancel_word.specs.Seats.{IsOf, count_of, view_of};

use crate::view::{Decide, Gives, Look, Number, Unites};
use crate::word::{Cancel, Decided, StopSeat};
use atomic_table::Table;
use std::alloc::{AllocError, Global};
use std::marker::Brand;

impl Cancel {
    /// The word 0, and a seat that holds the numbers below `numbers`, the last of which is its own.
    pub fn new(alloc: Global, numbers: u64) -> Result<(Cancel, StopSeat), AllocError>
        requires some { 1 ≤ numbers }
        requires few { numbers ≤ 2 ^ 32 }
        ensures seat { IfOk result (λ r. IsOf r.0 r.1) }
        ensures count { IfOk result (λ r. count_of r.0 ≡ numbers) }
        ensures view { IfOk result (λ r. view_of r.1 ≡ first_view numbers) }
        ensures own { IfOk result (λ r. r.1.own + 1 ≡ numbers) }
    {
        let (table, seat) = Table::of_words(alloc, &[0], &numbers)?;
        let seat = StopSeat {
            seat,
            own: numbers - 1,
        };
        Ok((Cancel { table }, seat))
    }

    /// Whether the word is set, by one load, which the seat counts. What the seat has seen, it keeps seeing, and it sees
    /// the word set from when it decided.
    pub fn is_set(&self, seat: &mut StopSeat) -> bool
        requires seat { IsOf self.now seat.old }
        ensures seat { IsOf self.now seat.new }
        ensures own { seat.new.own ≡ seat.old.own }
        ensures view { view_of seat.new ≡ loaded result (view_of seat.old) }
        ensures seen { (view_of seat.old).seen ≡ true → IsTrue result }
        ensures decided { (view_of seat.old).decided ≡ true → IsTrue result }
    {
        let found = self.table.shared.load::<Look>(&mut seat.seat, 0);
        found != 0
    }

    /// Sets the word to 1 plus the seat's own number where it is 0, by one compare and exchange, and answers whether it
    /// did. The seat has then decided, and else it has seen the word set.
    pub fn stop(&self, seat: &mut StopSeat, _token: &Decided) -> bool
        requires seat { IsOf self.now seat.old }
        ensures seat { IsOf self.now seat.new }
        ensures own { seat.new.own ≡ seat.old.own }
        ensures won { IsTrue result → view_of seat.new ≡ won (view_of seat.old) }
        ensures lost { IsFalse result → view_of seat.new ≡ lost (view_of seat.old) }
        ensures seen { (view_of seat.old).seen ≡ true → IsFalse result }
        ensures decided { (view_of seat.old).decided ≡ true → IsFalse result }
    {
        let own = seat.own;
        let found = self
            .table
            .shared
            .compare_exchange::<Decide>(&mut seat.seat, 0, 0, own + 1);
        found == 0
    }

    /// Moves one number to a new seat, whose own it becomes. It takes no memory.
    pub fn split(&self, seat: &mut StopSeat, number: u64) -> StopSeat
        requires seat { IsOf self.now seat.old }
        requires held { has number (view_of seat.old).numbers ≡ true }
        requires other { number ≢ seat.old.own }
        requires undecided { (view_of seat.old).decided ≡ false }
        ensures seat { IsOf self.now seat.new }
        ensures own { seat.new.own ≡ seat.old.own }
        ensures view { view_of seat.new ≡ kept_back number (view_of seat.old) }
        ensures new_seat { IsOf self.now result }
        ensures new_own { result.own ≡ number }
        ensures new_view { view_of result ≡ given number (view_of seat.old) }
    {
        self.split_off::<Brand>(seat, number)
    }

    /// The same, with the number as a part of the step's type.
    fn split_off<N: Number>(&self, seat: &mut StopSeat, number: u64) -> StopSeat
        requires number { number ≡ N.number }
        requires seat { IsOf self.now seat.old }
        requires held { has number (view_of seat.old).numbers ≡ true }
        requires other { number ≢ seat.old.own }
        requires undecided { (view_of seat.old).decided ≡ false }
        ensures seat { IsOf self.now seat.new }
        ensures own { seat.new.own ≡ seat.old.own }
        ensures view { view_of seat.new ≡ kept_back number (view_of seat.old) }
        ensures new_seat { IsOf self.now result }
        ensures new_own { result.own ≡ number }
        ensures new_view { view_of result ≡ given number (view_of seat.old) }
    {
        let new = self.table.shared.split_seat::<Gives<N>>(&mut seat.seat);
        StopSeat {
            seat: new,
            own: number,
        }
    }

    /// Gives the other seat's numbers, and what it knows, to the first, which keeps its own number.
    pub fn join(&self, seat: &mut StopSeat, other: StopSeat)
        requires seat { IsOf self.now seat.old }
        requires other { IsOf self.now other }
        ensures seat { IsOf self.now seat.new }
        ensures own { seat.new.own ≡ seat.old.own }
        ensures view { view_of seat.new ≡ united (view_of seat.old) (view_of other) }
    {
        let StopSeat {
            seat: taken,
            own: _,
        } = other;
        self.table.shared.join_seat::<Unites>(&mut seat.seat, taken);
    }

    /// The word at the end, 0 or 1 plus one of its numbers. Where it is 0, the seat has neither decided nor seen it set;
    /// where it is 1 plus a number that the seat holds, the seat has decided.
    pub fn close(self, seat: StopSeat) -> u64
        requires seat { IsOf self seat }
        ensures number { result ≤ count_of self }
        ensures undecided { result ≡ 0 → (view_of seat).decided ≡ false }
        ensures unseen { result ≡ 0 → (view_of seat).seen ≡ false }
        ensures named { (n : ℕ) → result ≡ n + 1 → has n (view_of seat).numbers ≡ true → (view_of seat).decided ≡ true }
    {
        let Cancel { table } = self;
        let StopSeat { seat, own: _ } = seat;
        let closed = table.close_with(seat);
        let word = closed.word(0);
        closed.free();
        word
    }
}
