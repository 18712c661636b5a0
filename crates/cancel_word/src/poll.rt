ghost use Rattle.std.specs.Prelude.{◌≡◌, true, IsTrue, IsFalse};
ghost use Rattle.cancel_word.specs.Word.{loaded};
ghost use Rattle.cancel_word.specs.Seats.{IsOf, view_of};

use crate::word::{Cancel, StopSeat};
use sat_core::Poll;

/// A poll that asks a word, by a seat of it: each ask is one load, and it says yes where the word was set at that load. It
/// counts the asks and the answers yes; a count stays at its last value, 2^64 - 1.
#[derive(Drop)]
pub struct WordPoll<'a> {
    word: &'a Cancel,
    seat: &'a mut StopSeat,
    asks: u64,
    yeses: u64,
}

impl<'a> WordPoll<'a> {
    /// Not asked yet, it asks this word, of which this is a seat.
    pub fn new(word: &'a Cancel, seat: &'a mut StopSeat) -> WordPoll<'a>
        requires seat { IsOf word.now seat.old }
        ensures word { result.word.now ≡ word.now }
        ensures seat { result.seat.now ≡ seat.old }
        ensures lent { result.seat.ghost_name ≡ seat.entry.ghost_name }
        ensures asks { result.asks ≡ 0 }
        ensures yeses { result.yeses ≡ 0 }
    {
        WordPoll {
            word,
            seat,
            asks: 0,
            yeses: 0,
        }
    }
}

impl<'a> Poll for WordPoll<'a> {
    ghost use Rattle.sat_core.specs.Counts.{raised};
    ghost use Rattle.cancel_word.specs.Polls.{Reader, reader_of, IsReady};

    ghost Held = { Reader };

    ghost held = { reader_of };

    ghost ready = { IsReady };

    ghost asks = { λ p. p.asks };

    ghost yeses = { λ p. p.yeses };

    /// Whether the word is set, by one load. What the seat has seen, it keeps seeing.
    fn stop(&mut self) -> bool
        requires ready { IsReady self.old }
        ensures ready { IsReady self.new }
        ensures held { reader_of self.new ≡ reader_of self.old }
        ensures asks { self.new.asks ≡ raised self.old.asks }
        ensures yes { IsTrue result → self.new.yeses ≡ raised self.old.yeses }
        ensures no { IsFalse result → self.new.yeses ≡ self.old.yeses }
        ensures view { view_of self.new.seat.now ≡ loaded result (view_of self.old.seat.now) }
        ensures seen { (view_of self.old.seat.now).seen ≡ true → IsTrue result }
        ensures decided { (view_of self.old.seat.now).decided ≡ true → IsTrue result }
    {
        self.asks = self.asks.saturating_add(1);
        let yes = self.word.is_set(self.seat);
        if yes {
            self.yeses = self.yeses.saturating_add(1);
        }
        yes
    }
}
