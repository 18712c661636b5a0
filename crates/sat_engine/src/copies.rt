use crate::literal::complement;
use crate::look::is_true;
use crate::store::Store;
use kv_base::NoMemory;
use std::alloc::Global;
use std::mem;

/// No clause, and no place.
const NOTHING: u32 = u32::MAX;

/// How many words stand before the literals of a copy.
const HEAD: usize = 3;

/// What a look at a copy says beside one of the two literals that it watches.
#[derive(Clone, Copy, Debug)]
pub enum Look {
    /// the copy is gone, or it doesn't watch the literal
    Gone,
    /// the other watched literal is true
    True(u32),
    /// a further literal isn't false, and is watched from now on
    Moved { to: u32, other: u32 },
    /// all literals but the other watched one are false, and the clause begins at this place of the store
    Left { home: u32, other: u32 },
}

/// Copies of the clauses that are watched, one after another in one array: the clause's number, where it begins in the
/// store, how many literals stand in the copy, and these, the two that are watched first. No proof rests on them.
#[derive(Drop)]
pub struct Copies {
    alloc: Global,
    words: Vec<u32>,
    /// where each clause's copy begins
    places: Vec<u32>,
    /// how many words stand in copies that are gone
    gone: usize,
}

/// The first literal that isn't false.
fn first_open(lits: &[u32], truth: &[bool]) -> Option<usize> {
    for (at, lit) in lits.iter().enumerate() {
        if !is_true(truth, complement(*lit)) {
            return Some(at);
        }
    }
    None
}

impl Copies {
    /// No copies. It takes no memory.
    pub fn new(alloc: Global) -> Copies {
        Copies {
            alloc,
            words: Vec::new(alloc),
            places: Vec::new(alloc),
            gone: 0,
        }
    }

    /// Where the copy of a clause begins.
    pub fn place_of(&self, clause: u32) -> Option<u32> {
        let place = *self.places.get(clause as usize)?;
        if place == NOTHING { None } else { Some(place) }
    }

    /// Has a clause's copy begin at a place.
    fn set_place(&mut self, clause: u32, place: u32) {
        if let Some(kept) = self.places.get_mut(clause as usize) {
            *kept = place;
        }
    }

    /// Writes a word of the array.
    fn set_word(&mut self, at: usize, word: u32) {
        if let Some(kept) = self.words.get_mut(at) {
            *kept = word;
        }
    }

    /// Copies a clause of the store that watches two of its literals, and gives the place. None where there is no such
    /// clause.
    pub fn add(
        &mut self,
        store: &Store,
        clause: u32,
        one: u32,
        two: u32,
    ) -> Result<Option<u32>, NoMemory> {
        let number = clause as usize;
        if number >= store.len() {
            return Ok(None);
        }
        let Ok(place) = u32::try_from(self.words.len()) else {
            return Err(NoMemory);
        };
        for _ in self.places.len()..=number {
            self.places.push(NOTHING)?;
        }
        let home = store.place_of(number);
        self.words.extend_from_slice(&[clause, home, 2, one, two])?;
        let further = self.add_others(store.get(number), one, two)?;
        self.set_word(
            (place as usize).saturating_add(2),
            further.saturating_add(2),
        );
        self.set_place(clause, place);
        Ok(Some(place))
    }

    /// Puts the further literals at the end, and counts them.
    fn add_others(&mut self, lits: &[u32], one: u32, two: u32) -> Result<u32, NoMemory> {
        let mut many = 0u32;
        for lit in lits {
            if *lit != one && *lit != two {
                self.words.push(*lit)?;
                many = many.saturating_add(1);
            }
        }
        Ok(many)
    }

    /// The literals of the copy at a place.
    fn lits(&self, place: u32) -> &[u32] {
        let first = place as usize + HEAD;
        if first > self.words.len() {
            return &[];
        }
        let end = first + self.words[first - 1] as usize;
        if end > self.words.len() {
            return &[];
        }
        &self.words[first..end]
    }

    /// The literals of a clause's copy, those that it watches first, or none.
    pub fn literals_of(&self, clause: u32) -> &[u32] {
        match self.place_of(clause) {
            Some(place) => self.lits(place),
            None => &[],
        }
    }

    /// Leaves a clause's copy to the next tidying.
    pub fn remove(&mut self, clause: u32) {
        let Some(place) = self.place_of(clause) else {
            return;
        };
        self.gone = self
            .gone
            .saturating_add(self.lits(place).len())
            .saturating_add(HEAD);
        self.set_place(clause, NOTHING);
        self.set_word(place as usize, NOTHING);
    }

    /// Looks at the copy at a place beside `lit`, a watched literal of it that is false.
    pub fn look(&mut self, place: u32, lit: u32, truth: &[bool]) -> Look {
        let first = place as usize + HEAD;
        if first + 2 > self.words.len() {
            return Look::Gone;
        }
        let end = first + self.words[first - 1] as usize;
        if self.words[first - 3] == NOTHING || end > self.words.len() || end < first + 2 {
            return Look::Gone;
        }
        let one = self.words[first];
        let two = self.words[first + 1];
        if one != lit && two != lit {
            return Look::Gone;
        }
        let (seat, other) = if one == lit {
            (first, two)
        } else {
            (first + 1, one)
        };
        if is_true(truth, other) {
            return Look::True(other);
        }
        match first_open(&self.words[first + 2..end], truth) {
            None => Look::Left {
                home: self.words[first - 2],
                other,
            },
            Some(at) => {
                let to = self.exchange(seat, first + 2, at);
                Look::Moved { to, other }
            }
        }
    }

    /// Has a watched literal and one from `first` on stand in each other's place, and gives that one.
    fn exchange(&mut self, seat: usize, first: usize, at: usize) -> u32 {
        let place = first.saturating_add(at);
        let to = self.words.get(place).copied().unwrap_or(NOTHING);
        let from = self.words.get(seat).copied().unwrap_or(NOTHING);
        self.set_word(seat, to);
        self.set_word(place, from);
        to
    }

    /// Whether most words stand in copies that are gone.
    pub fn is_due(&self) -> bool {
        self.gone > self.words.len() / 2
    }

    /// Drops the copies that are gone. What is given tells where the others went.
    pub fn tidy(&mut self) -> Result<Moves, NoMemory> {
        let mut old = mem::replace(&mut self.words, Vec::new(self.alloc));
        self.gone = 0;
        let mut at = 0;
        while at + HEAD <= old.len() {
            let end = at + HEAD + old[at + 2] as usize;
            if end > old.len() {
                break;
            }
            let clause = old[at];
            if clause != NOTHING {
                old[at + 1] = self.take_over(clause, &old[at..end])?;
            }
            at = end;
        }
        Ok(Moves { words: old })
    }

    /// Puts a copy at the end, and gives its place.
    fn take_over(&mut self, clause: u32, copy: &[u32]) -> Result<u32, NoMemory> {
        let Ok(place) = u32::try_from(self.words.len()) else {
            return Err(NoMemory);
        };
        self.words.extend_from_slice(copy)?;
        self.set_place(clause, place);
        Ok(place)
    }
}

/// The copies as they stood, each that isn't gone with its new place after its clause.
#[derive(Drop)]
pub struct Moves {
    words: Vec<u32>,
}

impl Moves {
    /// Where the copy at a place went.
    pub fn to(&self, place: u32) -> Option<u32> {
        let at = place as usize;
        if *self.words.get(at)? == NOTHING {
            return None;
        }
        self.words.get(at + 1).copied()
    }
}
