use crate::copies::{Copies, Look, Moves};
use crate::store::Store;
use kv_base::NoMemory;
use std::alloc::Global;
use std::mem;

/// Where the copy of a clause that watches a literal begins, and another literal of it: while that one is true, the
/// clause isn't looked at.
#[derive(Clone, Copy, Debug)]
pub struct Watch {
    pub place: u32,
    pub blocker: u32,
}

/// Which clauses watch each literal, with a copy of each of them. No proof rests on it.
#[derive(Drop)]
pub struct Watches {
    lists: Vec<Vec<Watch>>,
    copies: Copies,
}

/// Follows the copies to where they went, and drops what watches for one that is gone.
fn follow(list: &mut Vec<Watch>, moves: &Moves) {
    let mut i = 0;
    while i < list.len() {
        let watch = list[i];
        match moves.to(watch.place) {
            Some(place) => {
                list[i] = Watch {
                    place,
                    blocker: watch.blocker,
                };
                i += 1;
            }
            None => {
                let _gone = list.swap_remove(i);
            }
        }
    }
}

impl Watches {
    /// No clauses. It takes no memory.
    pub fn new(alloc: Global) -> Watches {
        Watches {
            lists: Vec::new(alloc),
            copies: Copies::new(alloc),
        }
    }

    /// Makes lists for a further variable.
    pub fn widen(&mut self, alloc: Global) -> Result<(), NoMemory> {
        self.lists.push(Vec::new(alloc))?;
        self.lists.push(Vec::new(alloc))?;
        Ok(())
    }

    /// Whether the clause watches two literals.
    pub fn is_watched(&self, clause: u32) -> bool {
        self.copies.place_of(clause).is_some()
    }

    /// The literals of a clause, those that it watches first, or none where it watches nothing.
    pub fn literals_of(&self, clause: u32) -> &[u32] {
        self.copies.literals_of(clause)
    }

    /// Puts a watch into a literal's list.
    fn put(&mut self, lit: u32, watch: Watch) -> Result<(), NoMemory> {
        if let Some(list) = self.lists.get_mut(lit as usize) {
            list.push(watch)?;
        }
        Ok(())
    }

    /// Has a clause of the store watch two of its literals.
    pub fn add(&mut self, store: &Store, clause: u32, one: u32, two: u32) -> Result<(), NoMemory> {
        if self.copies.is_due() {
            self.tidy()?;
        }
        let Some(place) = self.copies.add(store, clause, one, two)? else {
            return Ok(());
        };
        self.put(
            one,
            Watch {
                place,
                blocker: two,
            },
        )?;
        self.put(
            two,
            Watch {
                place,
                blocker: one,
            },
        )
    }

    /// Drops the copies that are gone, and what watches for them.
    fn tidy(&mut self) -> Result<(), NoMemory> {
        let moves = self.copies.tidy()?;
        for list in self.lists.iter_mut() {
            follow(list, &moves);
        }
        Ok(())
    }

    /// Has the clause watch nothing. What the lists have of it goes when it is met.
    pub fn forget(&mut self, clause: u32) {
        self.copies.remove(clause);
    }

    /// Looks at a clause that watches a false literal. Where another literal comes in its place, that one's list has
    /// the clause from then on, and the false one's is left to the caller.
    pub fn look(&mut self, watch: Watch, lit: u32, truth: &[bool]) -> Result<Look, NoMemory> {
        let look = self.copies.look(watch.place, lit, truth);
        if let Look::Moved { to, other } = look {
            self.put(
                to,
                Watch {
                    place: watch.place,
                    blocker: other,
                },
            )?;
        }
        Ok(look)
    }

    /// Takes out what watches the literal.
    pub fn take(&mut self, alloc: Global, lit: u32) -> Vec<Watch> {
        match self.lists.get_mut(lit as usize) {
            Some(list) => mem::replace(list, Vec::new(alloc)),
            None => Vec::new(alloc),
        }
    }

    /// Puts back what watches the literal.
    pub fn put_back(&mut self, lit: u32, list: Vec<Watch>) {
        if let Some(place) = self.lists.get_mut(lit as usize) {
            *place = list;
        }
    }
}
