ghost use Rattle.std.specs.Prelude.{ℕ, ◌≡◌, ◌≤◌, ◌↔◌, IsTrue, IsFalse};
ghost use Rattle.sat_core.specs.Counts.{raised};

/// Whether to stop, asked now and then by what takes long. It counts the asks and the answers yes; a count stays at its
/// last value, 2^64 - 1.
pub trait Poll {
    // What a value was made with, which no ask changes.
    ghost Held: { Type 0 };

    ghost held: { Self → Held };

    // What a value must be for an ask, which no ask ends.
    ghost ready: { Self → Type 0 };

    ghost asks: { Self → ℕ };

    ghost yeses: { Self → ℕ };

    /// Whether to stop now.
    fn stop(&mut self) -> bool
        requires ready { ready self.old }
        ensures ready { ready self.new }
        ensures held { held self.new ≡ held self.old }
        ensures asks { asks self.new ≡ raised (asks self.old) }
        ensures yes { IsTrue result → yeses self.new ≡ raised (yeses self.old) }
        ensures no { IsFalse result → yeses self.new ≡ yeses self.old };
}

/// A poll that never says yes.
#[derive(Debug, Drop)]
pub struct NeverPoll {
    asks: u64,
}

impl NeverPoll {
    /// Not asked yet.
    pub fn new() -> NeverPoll
        ensures { result ≡ record { asks = 0 } }
    {
        NeverPoll { asks: 0 }
    }
}

impl Poll for NeverPoll {
    ghost Held = { Unit {0} };

    ghost held = { λ _. tt };

    ghost ready = { λ _. Unit {0} };

    ghost asks = { λ p. p.asks };

    ghost yeses = { λ _. 0 };

    fn stop(&mut self) -> bool
        ensures asks { self.new.asks ≡ raised self.old.asks }
        ensures never { IsFalse result }
    {
        self.asks = self.asks.saturating_add(1);
        false
    }
}

/// A poll that says yes at its n-th ask and after. It counts the asks and the answers yes.
#[derive(Debug, Drop)]
pub struct PollAt {
    at: u64,
    asks: u64,
    yeses: u64,
}

impl PollAt {
    /// Not asked yet, it says yes at the ask of this number, counted from 1, and after.
    pub fn new(at: u64) -> PollAt
        ensures { result ≡ record { at = at; asks = 0; yeses = 0 } }
    {
        PollAt {
            at,
            asks: 0,
            yeses: 0,
        }
    }

    /// How often it said yes.
    pub fn yeses(&self) -> u64
        ensures { result ≡ self.now.yeses }
    {
        self.yeses
    }
}

impl Poll for PollAt {
    ghost Held = { ℕ };

    ghost held = { λ p. p.at };

    ghost ready = { λ _. Unit {0} };

    ghost asks = { λ p. p.asks };

    ghost yeses = { λ p. p.yeses };

    fn stop(&mut self) -> bool
        ensures at { self.new.at ≡ self.old.at }
        ensures asks { self.new.asks ≡ raised self.old.asks }
        ensures yes { IsTrue result → self.new.yeses ≡ raised self.old.yeses }
        ensures no { IsFalse result → self.new.yeses ≡ self.old.yeses }
        ensures answer { IsTrue result ↔ self.old.at ≤ raised self.old.asks }
    {
        self.asks = self.asks.saturating_add(1);
        if self.asks < self.at {
            return false;
        }
        self.yeses = self.yeses.saturating_add(1);
        true
    }
}
