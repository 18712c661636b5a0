use sat_order::luby;

/// How many clauses the shortest run learns.
const RUN: u64 = 200;

/// When to begin anew: after runs whose lengths are Luby's. No proof rests on it.
#[derive(Drop)]
pub struct Restarting {
    runs: u64,
    /// how many clauses this run may still learn
    left: u64,
}

impl Restarting {
    /// The first run.
    pub fn new() -> Restarting {
        Restarting { runs: 1, left: RUN }
    }

    /// Takes note that a clause was learnt, and says whether to begin anew.
    pub fn learnt(&mut self) -> bool {
        self.left = self.left.saturating_sub(1);
        if self.left > 0 {
            return false;
        }
        self.runs = self.runs.saturating_add(1);
        self.left = luby(self.runs).saturating_mul(RUN);
        true
    }
}
