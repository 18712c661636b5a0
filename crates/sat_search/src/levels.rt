use kv_base::NoMemory;
use sat_engine::Trail;
use std::alloc::Global;

/// The levels of the trail's places: how many choices stand up to there. No proof rests on it.
#[derive(Drop)]
pub struct Levels {
    // of each place before the last choice
    places: Vec<u32>,
    // of the places from there on
    last: u32,
    // at which count each level was seen last
    seen: Vec<u64>,
    counts: u64,
}

impl Levels {
    /// No choices. It takes no memory.
    pub fn new(alloc: Global) -> Levels {
        Levels {
            places: Vec::new(alloc),
            last: 0,
            seen: Vec::new(alloc),
            counts: 0,
        }
    }

    /// Takes note that a literal is chosen at this place of the trail.
    pub fn chosen(&mut self, at: usize) -> Result<(), NoMemory> {
        for _place in self.places.len()..at {
            self.places.push(self.last)?;
        }
        self.last = self.last.saturating_add(1);
        Ok(())
    }

    /// Takes note that the trail is cut to this length.
    pub fn cut(&mut self, n: usize) {
        if n > self.places.len() {
            return;
        }
        self.places.truncate(n);
        self.last = self.places.last().copied().unwrap_or(0);
    }

    /// How many choices stand up to this place.
    pub fn level(&self, place: usize) -> usize {
        self.places.get(place).copied().unwrap_or(self.last) as usize
    }

    /// Whether the level wasn't seen in this count.
    fn is_new(&mut self, level: usize) -> Result<bool, NoMemory> {
        for _level in self.seen.len()..level.saturating_add(1) {
            self.seen.push(0)?;
        }
        match self.seen.get_mut(level) {
            Some(seen) => {
                let is_new = *seen != self.counts;
                *seen = self.counts;
                Ok(is_new)
            }
            None => Ok(false),
        }
    }

    /// On how many levels the literals of a clause stand.
    pub fn count(&mut self, clause: &[u32], trail: &Trail) -> Result<u32, NoMemory> {
        self.counts = self.counts.saturating_add(1);
        let mut many = 0u32;
        for lit in clause {
            let at = trail.place.get((*lit / 2) as usize).copied().unwrap_or(0);
            let level = self.level(at);
            if self.is_new(level)? {
                many = many.saturating_add(1);
            }
        }
        Ok(many)
    }
}
