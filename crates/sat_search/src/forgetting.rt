use kv_base::NoMemory;
use sat_engine::Watches;
use std::alloc::Global;

/// After how many conflicts the number of clauses that may be forgotten is first let grow.
const GROW: u64 = 100;

/// How many shares a use counts for.
const SHARES: u32 = 16;

/// The least limit.
const LEAST: usize = 100;

/// A clause of so few levels is never forgotten.
const FEW: u32 = 2;

/// What a learnt clause was of use for.
#[derive(Clone, Copy, Debug)]
struct Rating {
    /// how often it was used, where a use counts for half after each time that clauses are forgotten
    uses: u32,
    /// on how many levels its false literals stood once the search had stepped back
    levels: u32,
}

/// What a clause begins with.
const UNUSED: Rating = Rating { uses: 1, levels: 1 };

/// Which learnt clauses are forgotten, and when. The limit is at least a third of the clauses that were added, also of those
/// that are added between two searches, and grows with the conflicts. No proof rests on it.
#[derive(Drop)]
pub struct Forgetting {
    /// the clauses that may be forgotten
    learnt: Vec<u32>,
    /// of each clause
    ratings: Vec<Rating>,
    /// how many clauses were learnt
    rated: usize,
    /// at how many of those that may be forgotten some are
    limit: usize,
    conflicts: u64,
    /// after how many conflicts the limit is let grow next, and how many more it takes then
    due: u64,
    more: u64,
}

impl Forgetting {
    /// No clause. It takes no memory.
    pub fn new(alloc: Global) -> Forgetting {
        Forgetting {
            learnt: Vec::new(alloc),
            ratings: Vec::new(alloc),
            rated: 0,
            limit: LEAST,
            conflicts: 0,
            due: GROW,
            more: GROW,
        }
    }

    /// Takes note of a conflict.
    pub fn conflict(&mut self) {
        self.conflicts = self.conflicts.saturating_add(1);
        self.grow_limit();
    }

    /// Lets the limit grow by a tenth, where that is due.
    fn grow_limit(&mut self) {
        if self.conflicts < self.due {
            return;
        }
        self.more = self.more.saturating_add(self.more / 2);
        self.due = self.due.saturating_add(self.more);
        self.limit = self.limit.saturating_add(self.limit / 10);
    }

    /// Takes note of a learnt clause and its levels.
    pub fn rate(&mut self, number: u32, levels: u32) -> Result<(), NoMemory> {
        let added = (number as usize).saturating_sub(self.rated);
        self.rated = self.rated.saturating_add(1);
        self.limit = self.limit.max(added / 3);
        for _clause in self.ratings.len()..=number as usize {
            self.ratings.push(UNUSED)?;
        }
        if let Some(rating) = self.ratings.get_mut(number as usize) {
            rating.levels = levels;
        }
        if levels > FEW {
            self.learnt.push(number)?;
        }
        Ok(())
    }

    /// Takes note that a forgotten clause is watched again.
    pub fn recall(&mut self, number: u32) -> Result<(), NoMemory> {
        self.learnt.push(number)?;
        self.used(number);
        Ok(())
    }

    /// Takes note that a clause had a part in a conflict.
    pub fn used(&mut self, number: u32) {
        if let Some(rating) = self.ratings.get_mut(number as usize) {
            rating.uses = rating.uses.saturating_add(SHARES);
        }
    }

    /// What a clause is worth: how often it was used, for each of its levels.
    fn worth(&self, number: u32) -> usize {
        match self.ratings.get(number as usize) {
            Some(rating) => rating.uses.saturating_mul(SHARES) as usize
                / rating.levels.max(1) as usize,
            None => 0,
        }
    }

    /// How many clauses are worth so much, up to 1023 and more.
    fn counts(&self) -> [usize; 1024] {
        let mut counts = [0usize; 1024];
        for number in self.learnt.as_slice() {
            if let Some(count) = counts.get_mut(self.worth(*number).min(1023)) {
                *count = count.saturating_add(1);
            }
        }
        counts
    }

    /// So much that half of the clauses are worth no more.
    fn bound(&self) -> usize {
        let half = self.learnt.len() / 2;
        let counts = self.counts();
        let mut below = 0usize;
        for (worth, count) in counts.iter().enumerate() {
            below = below.saturating_add(*count);
            if below >= half {
                return worth;
            }
        }
        0
    }

    /// Whether some clauses are to be forgotten now.
    pub fn is_due(&self) -> bool {
        self.learnt.len() >= self.limit
    }

    /// Forgets half of the learnt clauses, those that are worth least.
    pub fn forget(&mut self, watches: &mut Watches) {
        let bound = self.bound();
        let mut left = self.learnt.len() / 2;
        let mut kept = 0usize;
        for at in 0..self.learnt.len() {
            let number = self.learnt.get(at).copied().unwrap_or(0);
            if left > 0 && self.worth(number) <= bound {
                left -= 1;
                watches.forget(number);
                continue;
            }
            if let Some(rating) = self.ratings.get_mut(number as usize) {
                rating.uses /= 2;
            }
            if let Some(place) = self.learnt.get_mut(kept) {
                *place = number;
            }
            kept = kept.saturating_add(1);
        }
        self.learnt.truncate(kept);
    }
}
