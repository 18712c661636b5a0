ghost use Rattle.std.specs.Prelude.{◌≡◌, ◌+◌, ◌*◌, ◌<◌, ◌^◌, if◌then◌else◌};
ghost use Rattle.sat_clause.specs.Literals.{variable_of, is_complement_of, complement_of, moved};

use kv_base::{Copied, Exact, NoMemory, Sequence};
use std::alloc::Global;
use std::marker::Model;

/// A literal: a variable or its complement. Contracts see it as a number, twice the variable and 1 more for the complement.
#[derive(Clone, Copy, Debug, PartialEq, Eq, Hash, Drop)]
pub struct Lit(u64);

impl Model for Lit {
    ghost use Rattle.std.specs.Prelude.{ℕ};
    ghost use Rattle.std.specs.Coded.{coded_ℕ};

    ghost Value = { ℕ };

    ghost coded = { coded_ℕ };

    ghost view = { λ l. l.0 };

    ghost inverse = { λ n. record { 0 = n } };
}

/// Literals of which at least one is true.
pub type Clause = Sequence<Lit>;

/// Clauses that are all true.
pub type Clauses = Sequence<Clause>;

/// Literals that are all true.
pub type Lits = Sequence<Lit>;

/// The clauses that a solver learnt, in the order in which it learnt them.
pub type Log = Sequence<Clause>;

/// Clauses over the variables below `vars`.
#[derive(Debug, Drop)]
pub struct Cnf {
    pub vars: u64,
    pub clauses: Clauses,
}

impl Lit {
    /// The variable, below 2^63, or its complement.
    pub fn new(variable: u64, is_complement: bool) -> Lit
        requires { variable < 2 ^ 63 }
        ensures { result ≡ 2 * variable + (if is_complement then 1 else 0) }
    {
        Lit(2 * variable + u64::from(is_complement))
    }

    /// The literal of this number: twice its variable, and 1 more for the complement.
    pub fn from_number(number: u64) -> Lit
        ensures { result ≡ number }
    {
        Lit(number)
    }

    /// Twice the variable, and 1 more for the complement.
    pub fn number(self) -> u64
        ensures { result ≡ self }
    {
        self.0
    }

    /// The variable that it speaks of.
    pub fn variable(self) -> u64
        ensures { result ≡ variable_of self }
    {
        self.0 / 2
    }

    /// Whether it is true where its variable is false.
    pub fn is_complement(self) -> bool
        ensures { result ≡ is_complement_of self }
    {
        self.0 % 2 == 1
    }

    /// The literal that is true where this one is false.
    pub fn complement(self) -> Lit
        ensures { result ≡ complement_of self }
    {
        if self.0 % 2 == 0 {
            Lit(self.0 + 1)
        } else {
            Lit(self.0 - 1)
        }
    }

    /// The same literal of the variable that lies `by` further on, which is below 2^63.
    pub fn moved(self, by: u64) -> Lit
        requires { variable_of self + by < 2 ^ 63 }
        ensures { result ≡ moved by self }
    {
        Lit(self.0 + 2 * by)
    }
}

impl Exact for Lit {
    ghost use Rattle.std.proofs.lemmas.Bool.Decides.{Decides-eqb};

    ghost decides = { Decides-eqb };
}

impl Copied for Lit {
    fn copy(&self, _alloc: Global) -> Result<Lit, NoMemory> {
        Ok(*self)
    }
}

impl Copied for Cnf {
    fn copy(&self, alloc: Global) -> Result<Cnf, NoMemory> {
        Ok(Cnf {
            vars: self.vars,
            clauses: self.clauses.copy(alloc)?,
        })
    }
}
