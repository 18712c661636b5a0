use kv_base::NoMemory;
use std::alloc::Global;

/// A place of the trail where an assumption was set, and its place among the assumptions.
#[derive(Clone, Copy, Debug)]
struct Start {
    at: usize,
    assumption: usize,
}

/// How far the search has come with its assumptions. What uses it tests it, and no proof rests on it.
#[derive(Drop)]
pub struct Assumptions {
    /// the place before which all assumptions are true
    reached: usize,
    /// where the trail has assumptions, from below
    starts: Vec<Start>,
    /// where the trail has its first free choice
    free: Option<usize>,
}

impl Assumptions {
    /// No assumption is set. It takes no memory.
    pub fn new(alloc: Global) -> Assumptions {
        Assumptions {
            reached: 0,
            starts: Vec::new(alloc),
            free: None,
        }
    }

    /// The place before which all assumptions are true.
    pub fn reached(&self) -> usize {
        self.reached
    }

    /// Takes note that all assumptions before this place are true.
    pub fn reach(&mut self, place: usize) {
        self.reached = place;
    }

    /// The trail's place of the first free choice.
    pub fn first_free(&self) -> Option<usize> {
        self.free
    }

    /// Takes note that the assumption that was reached is set at this place of the trail.
    pub fn assumed(&mut self, at: usize) -> Result<(), NoMemory> {
        self.starts.push(Start {
            at,
            assumption: self.reached,
        })?;
        Ok(())
    }

    /// Takes note that a literal is chosen freely at this place of the trail.
    pub fn chosen(&mut self, at: usize) {
        if self.free.is_none() {
            self.free = Some(at);
        }
    }

    /// Takes note that the trail is cut to this length.
    pub fn cut(&mut self, n: usize) {
        if self.free.is_some_and(|at| at >= n) {
            self.free = None;
        }
        let many = self.starts.len();
        for _start in 0..many {
            match self.starts.last().copied() {
                Some(start) if start.at >= n => self.reached = start.assumption,
                _ => return,
            }
            let _gone = self.starts.pop();
        }
        if many > 0 {
            self.reached = 0;
        }
    }
}
