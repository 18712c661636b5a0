//! Where a conflict is sought: first among the clauses that were learnt or used of late, and then among the others.
//! No proof rests on which clause is where.
ghost use Rattle.std.specs.Prelude.{◌≡◌, ℕ, ◌<◌, length, IfOk, IfSome};
ghost use Rattle.sat_clause.specs.Propagation.{clause_at};
ghost use Rattle.sat_engine.specs.Look.{AreInRange, AreFalse};
ghost use Rattle.sat_engine.specs.Grow.{Grows};

use kv_base::NoMemory;
use sat_engine::{Reason, Store, Trail, Watches, propagate};
use std::alloc::Global;
use std::mem;

/// After this many learnt clauses those that weren't used for long go to the next tier.
const PERIOD: u32 = 250;

/// How long a learnt clause stays in each tier but the last: for this many learnt clauses after its last use.
const PATIENCE: [u32; 2] = [400, 8000];

/// Where a clause comes from.
#[derive(Clone, Copy, Debug, PartialEq, Eq)]
pub enum Origin {
    Added,
    Learnt,
}

/// Clauses that are looked at together.
#[derive(Drop)]
struct Tier {
    watches: Watches,
    /// the learnt ones among them
    learnt: Vec<u32>,
}

impl Tier {
    /// No clauses. It takes no memory.
    fn new(alloc: Global) -> Tier {
        Tier {
            watches: Watches::new(alloc),
            learnt: Vec::new(alloc),
        }
    }
}

/// The clauses in tiers. Added clauses stay in the first. A learnt one begins there, goes on while it isn't used, and
/// comes back when it is.
#[derive(Drop)]
pub struct Tiers {
    tiers: [Tier; 3],
    /// for each clause, how many were learnt when it was last used
    used: Vec<u32>,
    /// how many were learnt
    now: u32,
    /// for each place of the trail, whether the conflict rests on it
    marks: Vec<bool>,
}

impl Tiers {
    /// No clauses. It takes no memory.
    pub fn new(alloc: Global) -> Tiers {
        Tiers {
            tiers: [Tier::new(alloc), Tier::new(alloc), Tier::new(alloc)],
            used: Vec::new(alloc),
            now: 0,
            marks: Vec::new(alloc),
        }
    }

    /// Makes room for a further variable.
    pub fn widen(&mut self, alloc: Global) -> Result<(), NoMemory> {
        for tier in &mut self.tiers {
            tier.watches.widen(alloc)?;
        }
        self.marks.push(false)?;
        Ok(())
    }

    /// Has a clause of the store watch two of its literals.
    pub fn add(
        &mut self,
        alloc: Global,
        store: &Store,
        origin: Origin,
        clause: u32,
        one: u32,
        two: u32,
    ) -> Result<(), NoMemory> {
        self.tiers[0].watches.add(store, clause, one, two)?;
        if origin == Origin::Learnt {
            self.note_use(clause)?;
            self.tiers[0].learnt.push(clause)?;
            self.now = self.now.saturating_add(1);
            self.age(alloc, store)?;
        }
        Ok(())
    }

    /// From time to time moves clauses that weren't used for long to the next tier.
    fn age(&mut self, alloc: Global, store: &Store) -> Result<(), NoMemory> {
        if self.now % PERIOD == 0 {
            self.thin_out(alloc, store, 0)?;
        }
        if self.now % (16 * PERIOD) == 0 {
            self.thin_out(alloc, store, 1)?;
        }
        Ok(())
    }

    /// Moves the clauses of a tier that weren't used for long to the next one.
    fn thin_out(&mut self, alloc: Global, store: &Store, tier: usize) -> Result<(), NoMemory>
        requires { tier < 2 }
    {
        for clause in mem::replace(&mut self.tiers[tier].learnt, Vec::new(alloc)) {
            if self.age_of(clause) > PATIENCE[tier] {
                self.move_to(store, tier, tier + 1, clause)?;
            } else {
                self.tiers[tier].learnt.push(clause)?;
            }
        }
        Ok(())
    }

    /// How many clauses were learnt since this one was last used.
    fn age_of(&self, clause: u32) -> u32 {
        let used = self.used.get(clause as usize).copied().unwrap_or(0);
        self.now.saturating_sub(used)
    }

    /// Moves a clause, if it is in the one tier, to the other.
    fn move_to(
        &mut self,
        store: &Store,
        from: usize,
        to: usize,
        clause: u32,
    ) -> Result<(), NoMemory>
        requires from { from < 3 }
        requires to { to < 3 }
    {
        let [one, two, ..] = self.tiers[from].watches.literals_of(clause) else {
            return Ok(());
        };
        let (one, two) = (*one, *two);
        self.tiers[from].watches.forget(clause);
        self.tiers[to].watches.add(store, clause, one, two)?;
        self.tiers[to].learnt.push(clause)?;
        Ok(())
    }

    /// Notes that a clause is used now.
    fn note_use(&mut self, clause: u32) -> Result<(), NoMemory> {
        for _ in self.used.len()..=clause as usize {
            self.used.push(0)?;
        }
        if let Some(used) = self.used.get_mut(clause as usize) {
            *used = self.now;
        }
        Ok(())
    }

    /// Brings a clause that is used back to the first tier.
    fn recall(&mut self, store: &Store, clause: u32) -> Result<(), NoMemory> {
        self.note_use(clause)?;
        self.move_to(store, 1, 0, clause)?;
        self.move_to(store, 2, 0, clause)
    }

    /// Marks the places of a clause's literals.
    fn mark(&mut self, store: &Store, trail: &Trail, clause: u32) {
        if clause as usize >= store.len() {
            return;
        }
        for lit in store.get(clause as usize) {
            let place = trail.place.get((*lit / 2) as usize).copied().unwrap_or(0);
            if let Some(mark) = self.marks.get_mut(place) {
                *mark = true;
            }
        }
    }

    /// Takes away the mark of a place, and answers whether it was there.
    fn unmark(&mut self, place: usize) -> bool {
        match self.marks.get_mut(place) {
            Some(mark) => mem::replace(mark, false),
            None => false,
        }
    }

    /// Recalls the clauses that lead from the literals before `base` to the false clause.
    fn recall_all(
        &mut self,
        store: &Store,
        trail: &Trail,
        base: usize,
        conflict: u32,
    ) -> Result<(), NoMemory> {
        self.recall(store, conflict)?;
        self.mark(store, trail, conflict);
        for place in (base..trail.steps.len()).rev() {
            if !self.unmark(place) {
                continue;
            }
            if let Reason::Clause(clause) = trail.steps[place].reason {
                self.recall(store, clause)?;
                self.mark(store, trail, clause);
            }
        }
        Ok(())
    }

    /// Propagates all literals of the trail through the later tiers, until one of them sets a literal.
    fn propagate_later(
        &mut self,
        alloc: Global,
        store: &Store,
        trail: &mut Trail,
    ) -> Result<Option<u32>, NoMemory>
        requires range { AreInRange store.now (length trail.old.truth.items) }
        ensures grows { Grows store.now trail.old.steps.items trail.new.steps.items }
        ensures size { length trail.new.truth.items ≡ length trail.old.truth.items }
        ensures conflict { IfOk result (λ r. IfSome r (λ i. (i < length store.now) × AreFalse (clause_at store.now i) trail.new.truth.items)) }
    {
        let settled = trail.steps.len();
        let found = propagate(alloc, store, trail, &mut self.tiers[1].watches, 0)?;
        if found.is_some() || trail.steps.len() > settled {
            return Ok(found);
        }
        propagate(alloc, store, trail, &mut self.tiers[2].watches, 0)
    }

    /// Propagates the literals of the trail from `from` on, and gives a false clause where one was found.
    fn seek(
        &mut self,
        alloc: Global,
        store: &Store,
        trail: &mut Trail,
        from: usize,
    ) -> Result<Option<u32>, NoMemory>
        requires range { AreInRange store.now (length trail.old.truth.items) }
        ensures grows { Grows store.now trail.old.steps.items trail.new.steps.items }
        ensures size { length trail.new.truth.items ≡ length trail.old.truth.items }
        ensures conflict { IfOk result (λ r. IfSome r (λ i. (i < length store.now) × AreFalse (clause_at store.now i) trail.new.truth.items)) }
    {
        let mut from = from;
        'rounds: loop {
            let found = propagate(alloc, store, trail, &mut self.tiers[0].watches, from)?;
            if found.is_some() {
                return Ok(found);
            }
            let settled = trail.steps.len();
            let found = self.propagate_later(alloc, store, trail)?;
            if found.is_some() || trail.steps.len() == settled {
                return Ok(found);
            }
            from = settled;
        }
    }

    /// Propagates the literals of the trail from `from` on, and gives a false clause where one was found.
    pub fn propagate(
        &mut self,
        alloc: Global,
        store: &Store,
        trail: &mut Trail,
        from: usize,
    ) -> Result<Option<u32>, NoMemory>
        requires range { AreInRange store.now (length trail.old.truth.items) }
        ensures grows { Grows store.now trail.old.steps.items trail.new.steps.items }
        ensures size { length trail.new.truth.items ≡ length trail.old.truth.items }
        ensures conflict { IfOk result (λ r. IfSome r (λ i. (i < length store.now) × AreFalse (clause_at store.now i) trail.new.truth.items)) }
    {
        let found = self.seek(alloc, store, trail, from)?;
        if let Some(clause) = found {
            self.recall_all(store, trail, from, clause)?;
        }
        Ok(found)
    }
}
