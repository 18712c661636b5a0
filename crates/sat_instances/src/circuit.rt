//! A circuit as clauses: each gate is a variable, with the clauses that make it the gate's value.

use kv_base::{NoMemory, Sequence};
use sat_clause::{Clause, Clauses, Cnf, Lit};
use std::alloc::Global;

/// More variables than this are out of memory.
const MAX_VARS: u64 = 1 << 40;

/// The clauses of the gates so far.
#[derive(Drop)]
pub struct Circuit {
    pub alloc: Global,
    vars: u64,
    clauses: Clauses,
}

/// A sum of bits.
#[derive(Clone, Copy)]
pub struct Sum {
    pub bit: Lit,
    pub carry: Lit,
}

impl Circuit {
    pub fn new(alloc: Global) -> Circuit {
        Circuit {
            alloc,
            vars: 0,
            clauses: Sequence::new(alloc),
        }
    }

    /// The clauses over the variables so far.
    pub fn into_cnf(self) -> Cnf {
        Cnf {
            vars: self.vars,
            clauses: self.clauses,
        }
    }

    /// A variable of its own.
    pub fn input(&mut self) -> Result<Lit, NoMemory> {
        if self.vars >= MAX_VARS {
            return Err(NoMemory);
        }
        let lit = Lit::new(self.vars, false);
        self.vars += 1;
        Ok(lit)
    }

    /// Adds a clause of these literals.
    pub fn clause(&mut self, lits: &[Lit]) -> Result<(), NoMemory> {
        let mut clause: Clause = Sequence::new(self.alloc);
        clause.extend_from_slice(lits)?;
        self.clauses.push(clause)
    }

    pub fn and(&mut self, a: Lit, b: Lit) -> Result<Lit, NoMemory> {
        let both = self.input()?;
        self.clause(&[both.complement(), a])?;
        self.clause(&[both.complement(), b])?;
        self.clause(&[both, a.complement(), b.complement()])?;
        Ok(both)
    }

    pub fn or(&mut self, a: Lit, b: Lit) -> Result<Lit, NoMemory> {
        let neither = self.and(a.complement(), b.complement())?;
        Ok(neither.complement())
    }

    pub fn xor(&mut self, a: Lit, b: Lit) -> Result<Lit, NoMemory> {
        let odd = self.input()?;
        self.clause(&[odd.complement(), a, b])?;
        self.clause(&[odd.complement(), a.complement(), b.complement()])?;
        self.clause(&[odd, a.complement(), b])?;
        self.clause(&[odd, a, b.complement()])?;
        Ok(odd)
    }

    /// The sum of two bits.
    pub fn half_adder(&mut self, a: Lit, b: Lit) -> Result<Sum, NoMemory> {
        let bit = self.xor(a, b)?;
        let carry = self.and(a, b)?;
        Ok(Sum { bit, carry })
    }

    /// The sum of three bits.
    pub fn full_adder(&mut self, a: Lit, b: Lit, c: Lit) -> Result<Sum, NoMemory> {
        let two = self.half_adder(a, b)?;
        let three = self.half_adder(two.bit, c)?;
        let carry = self.or(two.carry, three.carry)?;
        Ok(Sum {
            bit: three.bit,
            carry,
        })
    }
}
