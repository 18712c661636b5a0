use crate::levels::Levels;
use kv_base::NoMemory;
use sat_engine::{Reason, SetLiteral, Store, Trail};
use std::alloc::Global;

/// How many looks at reasons may be taken for each literal.
const LOOKS: usize = 1000;

/// What is known of a literal.
#[derive(Clone, Copy, Debug)]
enum Verdict {
    Open,
    /// it follows from the marked ones
    Implied,
    /// it doesn't
    Stands,
}

/// A place of the trail whose reason is looked through, and how far.
#[derive(Clone, Copy, Debug)]
struct Frame {
    at: usize,
    next: usize,
}

/// What comes next in a reason.
#[derive(Clone, Copy, Debug)]
enum Look {
    /// nothing: all its literals follow
    Done,
    /// the literal at this place, and the reason goes on after it
    Further(usize, usize),
    /// a literal that doesn't follow
    Stands,
}

/// The clauses, the trail, and the marks from which literals are to follow.
#[derive(Clone, Copy)]
pub struct Grounds<'a> {
    pub store: &'a Store,
    pub trail: &'a Trail,
    pub start: usize,
    pub marks: &'a [bool],
}

/// Which literals follow from the marked ones through several clauses. No proof rests on it.
#[derive(Drop)]
pub struct Implied {
    // of each variable
    verdicts: Vec<Verdict>,
    // the variables whose verdict isn't open
    judged: Vec<usize>,
    frames: Vec<Frame>,
    // the places of the listed literals, the first one first
    places: Vec<usize>,
    found: Vec<usize>,
    // a bit for each level of a listed literal
    levels: u64,
}

/// A word with the bit set that a level says.
fn bit(level: usize) -> u64 {
    1u64 << (level % 64)
}

impl Grounds<'_> {
    /// The step at a place of the trail.
    fn step(&self, at: usize) -> Option<SetLiteral> {
        self.trail.steps.get(at).copied()
    }

    /// The place at which a variable was set last.
    fn place(&self, var: usize) -> usize {
        self.trail.place.get(var).copied().unwrap_or(0)
    }

    /// Whether a variable is marked.
    fn is_marked(&self, var: usize) -> bool {
        self.marks.get(var).copied().unwrap_or(false)
    }

    /// Whether a variable is marked, or was set before `start`.
    fn is_settled(&self, var: usize) -> bool {
        self.is_marked(var) || self.place(var) < self.start
    }

    /// Whether a clause has set the literal at a place.
    fn has_reason(&self, at: usize) -> bool {
        match self.step(at) {
            Some(step) => matches!(step.reason, Reason::Clause(_)),
            None => false,
        }
    }

    /// The literal at a place, and the clause that set it.
    fn reason(&self, at: usize) -> Option<(u32, &[u32])> {
        let step = self.step(at)?;
        match step.reason {
            Reason::Clause(n) => {
                if n as usize >= self.store.len() {
                    return None;
                }
                Some((step.lit, self.store.get(n as usize)))
            }
            _ => None,
        }
    }
}

impl Implied {
    /// It takes no memory.
    pub fn new(alloc: Global) -> Implied {
        Implied {
            verdicts: Vec::new(alloc),
            judged: Vec::new(alloc),
            frames: Vec::new(alloc),
            places: Vec::new(alloc),
            found: Vec::new(alloc),
            levels: 0,
        }
    }

    /// The places that were found.
    pub fn found(&self) -> &[usize] {
        self.found.as_slice()
    }

    /// What was found of a variable.
    fn verdict(&self, var: usize) -> Verdict {
        self.verdicts.get(var).copied().unwrap_or(Verdict::Open)
    }

    /// Notes what was found of a variable.
    fn judge(&mut self, var: usize, verdict: Verdict) -> Result<(), NoMemory> {
        for _var in self.verdicts.len()..var.saturating_add(1) {
            self.verdicts.push(Verdict::Open)?;
        }
        if let Some(place) = self.verdicts.get_mut(var) {
            *place = verdict;
            self.judged.push(var)?;
        }
        Ok(())
    }

    /// Whether the literal at a place may follow: a clause has set it, on the level of a listed literal.
    fn may_follow(&self, grounds: &Grounds, levels: &Levels, at: usize) -> bool {
        grounds.has_reason(at) && self.levels & bit(levels.level(at)) != 0
    }

    /// Looks at the literals of a reason from one on.
    fn look(&self, grounds: &Grounds, levels: &Levels, frame: Frame) -> Look {
        let Some((lit, clause)) = grounds.reason(frame.at) else {
            return Look::Stands;
        };
        for next in frame.next..clause.len() {
            let var = (clause[next] / 2) as usize;
            if clause[next] == lit || grounds.is_settled(var) {
                continue;
            }
            let at = grounds.place(var);
            match self.verdict(var) {
                Verdict::Implied => {}
                Verdict::Stands => return Look::Stands,
                Verdict::Open => {
                    if self.may_follow(grounds, levels, at) {
                        return Look::Further(at, next.saturating_add(1));
                    }
                    return Look::Stands;
                }
            }
        }
        Look::Done
    }

    /// Notes what was found of the variable at a place.
    fn judge_at(&mut self, grounds: &Grounds, at: usize, verdict: Verdict) -> Result<(), NoMemory> {
        match grounds.step(at) {
            Some(step) => self.judge((step.lit / 2) as usize, verdict),
            None => Ok(()),
        }
    }

    /// None of the literals whose reasons are looked through follows.
    fn give_up(&mut self, grounds: &Grounds) -> Result<(), NoMemory> {
        for _frame in 0..self.frames.len() {
            if let Some(frame) = self.frames.pop() {
                self.judge_at(grounds, frame.at, Verdict::Stands)?;
            }
        }
        Ok(())
    }

    /// Takes one look at the reason on top.
    fn step(&mut self, grounds: &Grounds, levels: &Levels, frame: Frame) -> Result<(), NoMemory> {
        match self.look(grounds, levels, frame) {
            Look::Done => {
                self.found.push(frame.at)?;
                self.judge_at(grounds, frame.at, Verdict::Implied)
            }
            Look::Further(at, next) => {
                self.frames.push(Frame { at: frame.at, next })?;
                self.frames.push(Frame { at, next: 0 })?;
                Ok(())
            }
            Look::Stands => {
                self.judge_at(grounds, frame.at, Verdict::Stands)?;
                self.give_up(grounds)
            }
        }
    }

    /// Looks whether the literal at a place follows, and finds what it follows through.
    fn look_through(
        &mut self,
        grounds: &Grounds,
        levels: &Levels,
        at: usize,
    ) -> Result<(), NoMemory> {
        self.frames.truncate(0);
        self.frames.push(Frame { at, next: 0 })?;
        for _look in 0..LOOKS {
            match self.frames.pop() {
                Some(frame) => self.step(grounds, levels, frame)?,
                None => break,
            }
        }
        Ok(())
    }

    /// Forgets what was found before, and takes the places of the listed literals in their order.
    fn begin(&mut self, grounds: &Grounds, levels: &Levels, low: &[u32]) -> Result<(), NoMemory> {
        self.found.truncate(0);
        self.places.truncate(0);
        self.levels = 0;
        for lit in low {
            let at = grounds.place((*lit / 2) as usize);
            self.levels |= bit(levels.level(at));
            self.places.push(at)?;
        }
        self.places.as_mut_slice().sort_unstable();
        Ok(())
    }

    /// Takes all verdicts back.
    fn clear(&mut self) {
        for var in self.judged.as_slice() {
            if let Some(verdict) = self.verdicts.get_mut(*var) {
                *verdict = Verdict::Open;
            }
        }
        self.judged.truncate(0);
    }

    /// Finds which of the listed literals follow from the marked ones before them, and what lies between.
    pub fn seek(
        &mut self,
        grounds: &Grounds,
        levels: &Levels,
        low: &[u32],
    ) -> Result<(), NoMemory> {
        self.begin(grounds, levels, low)?;
        for next in 0..self.places.len() {
            let at = self.places.get(next).copied().unwrap_or(0);
            if grounds.has_reason(at) {
                self.look_through(grounds, levels, at)?;
            }
        }
        self.clear();
        Ok(())
    }
}
