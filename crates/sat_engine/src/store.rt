ghost use Rattle.std.specs.Prelude.{◌≡◌, ℕ, ◌+◌, ◌<◌, ◌≤◌, List, [], ◌∷◌, ◌++◌, length, true, IfOk, IfSome, OnOk, OnErr};
ghost use Rattle.sat_engine.specs.Look.{InRange};
ghost use Rattle.sat_clause.specs.Propagation.{clause_at};
ghost use Rattle.sat_engine.specs.Tag.{first_tag};

use kv_base::NoMemory;
use std::alloc::Global;
use std::marker::Model;

/// The least word that begins a clause. Literals and the numbers of clauses are less.
const TAG: u32 = 1 << 31;

/// How many words stand before the literals of a clause.
const LEAD: u32 = 2;

/// Where the literals of a clause stand.
#[derive(Clone, Copy, Debug)]
pub struct Head {
    pub start: u32,
    pub end: u32,
}

/// A clause of a store: its number and its literals.
#[derive(Clone, Copy, Debug)]
pub struct Stored<'a> {
    pub number: u32,
    pub lits: &'a [u32],
}

/// A growing list of clauses, one after another in one array: a word that says how many literals the clause has, its
/// number, and these.
#[derive(Drop)]
pub struct Store {
    words: Vec<u32>,
    heads: Vec<Head>,
}

impl Model for Store {
    ghost use Rattle.std.specs.Prelude.{ℕ, List};

    ghost Value = { List (List ℕ) };

    ghost use Rattle.sat_engine.specs.Store.{clauses_of, IsLaid};

    ghost view = { λ s. clauses_of s.words.items s.heads.items };

    ghost invariant = { λ s. IsLaid s.words.items s.heads.items };
}

/// The number of a clause or a place in the array. One past 32 bits is out of memory.
fn word(number: usize) -> Result<u32, NoMemory>
    ensures { IfOk result (λ word. word ≡ number) }
{
    match u32::try_from(number) {
        Ok(word) => Ok(word),
        Err(_) => Err(NoMemory),
    }
}

/// Whether each of the words is less than those that begin a clause.
fn are_plain(words: &[u32]) -> bool
    ensures { result ≡ true → InRange words.now first_tag }
{
    for word in words {
        if *word >= TAG {
            return false;
        }
    }
    true
}

impl Store {
    /// No clauses. It takes no memory.
    pub fn new(alloc: Global) -> Store
        ensures { result ≡ [] }
    {
        Store {
            words: Vec::new(alloc),
            heads: Vec::new(alloc),
        }
    }

    /// How many clauses there are.
    pub fn len(&self) -> usize
        ensures { result ≡ length self.now }
    {
        self.heads.len()
    }

    /// The literals of a clause.
    pub fn get(&self, i: usize) -> &[u32]
        requires { i < length self.now }
        ensures { result.now ≡ clause_at self.now i }
    {
        let head = self.heads[i];
        &self.words[head.start as usize..head.end as usize]
    }

    /// Where a clause begins.
    pub fn place_of(&self, i: usize) -> u32
        requires { i < length self.now }
    {
        self.heads[i].start.saturating_sub(LEAD)
    }

    /// The clause that begins at a place, if one does.
    pub fn at(&self, place: u32) -> Option<Stored<'_>>
        ensures { IfSome result (λ c. (c.number < length self.now) × (c.lits.now ≡ clause_at self.now c.number)) }
    {
        let start = (place as usize) + 2;
        if start > self.words.len() {
            return None;
        }
        let tag = self.words[start - 2];
        if tag < TAG {
            return None;
        }
        let end = start + (tag - TAG) as usize;
        Some(Stored {
            number: self.words[start - 1],
            lits: &self.words[start..end],
        })
    }

    /// Adds a clause. A literal of 2^31 or more is out of memory, and so is a clause past 2^31, or a place past 2^32.
    pub fn push(&mut self, clause: &[u32]) -> Result<(), NoMemory>
        ensures ok { OnOk result (self.new ≡ self.old ++ clause.now ∷ []) }
        ensures err { OnErr result (self.new ≡ self.old) }
    {
        let number = word(self.heads.len())?;
        let place = self.words.len();
        let start = word(place + 2)?;
        let end = word(place + 2 + clause.len())?;
        if number >= TAG || end - start >= TAG || !are_plain(clause) {
            return Err(NoMemory);
        }
        self.words.extend_from_slice(&[0, number])?;
        self.words.extend_from_slice(clause)?;
        self.heads.push(Head { start, end })?;
        self.words[place] = TAG + (end - start);
        Ok(())
    }
}
