ghost use Rattle.std.specs.Prelude.{◌≡◌, ◌<◌, ◌≤◌, ◌+◌, ℕ, ℤ, [], ◌∷◌, ◌++◌, length, IfOk, OnOk, OnErr};
ghost use Rattle.term_core.specs.Table.{term_at, term_value, Agrees, IsTermAt, IsTable, IsShared, HasValues, HasOneValue, HasShapes, Grows};

use crate::{NoMemory, Term, TermId};
use indexmap::IndexSet;
use std::alloc::Global;
use std::marker::Model;

/// A list of terms, in which equal terms share one number. A term names earlier ones alone, and the
/// shapes of operands fit.
#[derive(Drop)]
pub struct Terms {
    terms: IndexSet<Term>,
}

impl Model for Terms {
    ghost use Rattle.std.specs.Prelude.{List};
    ghost use Rattle.term_core.specs.declared.term.Term.{Term};
    ghost use Rattle.term_core.specs.Table.{IsTable, IsShared};

    ghost Value = { List Term };

    ghost view = { λ table. table.terms.keys };

    ghost invariant = { λ table. IsTable table.terms.keys × IsShared table.terms.keys };
}

impl Terms {
    /// No terms. It takes no memory.
    pub fn new(alloc: Global) -> Terms
        ensures { result ≡ [] }
    {
        Terms {
            terms: IndexSet::new(alloc),
        }
    }

    /// How many terms there are.
    pub fn len(&self) -> u64
        ensures { result ≡ length self.now }
    {
        self.terms.len() as u64
    }

    /// The term of a number.
    pub fn get(&self, id: TermId) -> Term
        requires { id.0 < length self.now }
        ensures value { result ≡ term_at self.now id.0 }
        ensures placed { IsTermAt self.now id.0 result }
    {
        self.terms[id.0 as usize]
    }

    /// What holds of every table: an environment gives each term one value, which has the term's shape.
    /// This function computes nothing: its contract is the law.
    pub fn values_are_fixed(&self)
        ensures table { IsTable self.now }
        ensures shared { IsShared self.now }
        ensures exist { HasValues self.now }
        ensures only { HasOneValue self.now }
        ensures shaped { HasShapes self.now }
    {
        let _terms = &self.terms;
    }

    /// Adds a term, or finds the one that is equal to it. Without memory for it the table stays as it
    /// was.
    pub fn add(&mut self, term: Term) -> Result<TermId, NoMemory>
        requires { IsTermAt self.old (length self.old) term }
        ensures stored { IfOk result (λ id. (id.0 < length self.new) × (term_at self.new id.0 ≡ term)) }
        ensures shared { IfOk result (λ id. (i : ℕ) → i < length self.new → term_at self.new i ≡ term → i ≡ id.0) }
        ensures value { IfOk result (λ id. (E V : ℕ → ℤ) → Agrees E V self.new → V id.0 ≡ term_value E V self.new term) }
        ensures kept { Grows self.old self.new }
        ensures others { length self.new ≤ length self.old + 1 }
        ensures err { OnErr result (self.new ≡ self.old) }
    {
        let (at, _) = self.terms.insert_full(term)?;
        Ok(TermId(at as u64))
    }
}
