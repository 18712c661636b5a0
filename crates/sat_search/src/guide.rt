use crate::assumptions::Assumptions;
use crate::deciding::Deciding;
use crate::forgetting::Forgetting;
use crate::implied::{Grounds, Implied};
use crate::levels::Levels;
use crate::restarting::Restarting;
use kv_base::NoMemory;
use sat_engine::{Trail, Watches};
use std::alloc::Global;

/// What guides a search: what to choose, when to begin anew, what to forget, and how far it has come with its
/// assumptions. No proof rests on it.
#[derive(Drop)]
pub struct Guide {
    deciding: Deciding,
    restarting: Restarting,
    forgetting: Forgetting,
    assumptions: Assumptions,
    levels: Levels,
    implied: Implied,
}

impl Guide {
    /// No variable. It takes no memory.
    pub fn new(alloc: Global) -> Guide {
        Guide {
            deciding: Deciding::new(alloc),
            restarting: Restarting::new(),
            forgetting: Forgetting::new(alloc),
            assumptions: Assumptions::new(alloc),
            levels: Levels::new(alloc),
            implied: Implied::new(alloc),
        }
    }

    /// Takes up a further variable.
    pub fn widen(&mut self) -> Result<(), NoMemory> {
        self.deciding.widen()
    }

    /// A literal that is neither true nor false.
    pub fn choose(&mut self, truth: &[bool]) -> Option<u32> {
        self.deciding.choose(truth)
    }

    /// Takes note that a literal is no longer true.
    pub fn unset(&mut self, lit: u32) {
        self.deciding.unset(lit);
    }

    /// Takes note that a literal had a part in a conflict.
    pub fn bump(&mut self, lit: u32) {
        self.deciding.bump(lit);
    }

    /// Takes note that a clause was learnt, and says whether to begin anew.
    pub fn learnt(&mut self) -> bool {
        self.deciding.decay();
        self.forgetting.conflict();
        self.restarting.learnt()
    }

    /// The place before which all assumptions are true.
    pub fn reached(&self) -> usize {
        self.assumptions.reached()
    }

    /// Takes note that all assumptions before this place are true.
    pub fn reach(&mut self, place: usize) {
        self.assumptions.reach(place);
    }

    /// The trail's place of the first free choice.
    pub fn first_free(&self) -> Option<usize> {
        self.assumptions.first_free()
    }

    /// Takes note that the assumption that was reached is set at this place of the trail.
    pub fn assumed(&mut self, at: usize) -> Result<(), NoMemory> {
        self.assumptions.assumed(at)?;
        self.levels.chosen(at)
    }

    /// Takes note that a literal is chosen freely at this place of the trail.
    pub fn chosen(&mut self, at: usize) -> Result<(), NoMemory> {
        self.assumptions.chosen(at);
        self.levels.chosen(at)
    }

    /// Takes note that the trail is cut to this length.
    pub fn cut(&mut self, n: usize) {
        self.assumptions.cut(n);
        self.levels.cut(n);
    }

    /// On how many levels the literals of a clause stand.
    pub fn levels_of(&mut self, clause: &[u32], trail: &Trail) -> Result<u32, NoMemory> {
        self.levels.count(clause, trail)
    }

    /// Places of the trail whose literals seem to follow from the marked ones, each after those that it follows from:
    /// the listed literals among them, and what lies between.
    pub fn implied(&mut self, grounds: &Grounds, low: &[u32]) -> Result<&[usize], NoMemory> {
        self.implied.seek(grounds, &self.levels, low)?;
        Ok(self.implied.found())
    }

    /// Takes note of a learnt clause and its levels.
    pub fn rate(&mut self, number: u32, levels: u32) -> Result<(), NoMemory> {
        self.forgetting.rate(number, levels)
    }

    /// Takes note that a forgotten clause is watched again.
    pub fn recall(&mut self, number: u32) -> Result<(), NoMemory> {
        self.forgetting.recall(number)
    }

    /// Takes note that a clause had a part in a conflict.
    pub fn used(&mut self, number: u32) {
        self.forgetting.used(number);
    }

    /// Whether some clauses are to be forgotten now.
    pub fn is_due(&self) -> bool {
        self.forgetting.is_due()
    }

    /// Forgets half of the learnt clauses, those that are worth least.
    pub fn forget(&mut self, watches: &mut Watches) {
        self.forgetting.forget(watches);
    }
}
