ghost use Rattle.std.specs.Prelude.{◌≡◌, ℕ, ◌+◌, ◌*◌, ◌<◌, ◌≤◌, Bool, true, false, List, [], ◌∷◌, ◌++◌, length, take, slice_index_or, OnOk, OnErr};
ghost use Rattle.sat_clause.specs.Literals.{complement_of};
ghost use Rattle.sat_engine.specs.Trail.{IsTrail, none_step, lit_at};

use kv_base::NoMemory;
use std::alloc::Global;

/// Why a literal was set true.
#[derive(Clone, Copy, Debug)]
pub enum Reason {
    /// by choice
    Free,
    /// it was assumed
    Assumed,
    /// each other literal of the clause of this number is false
    Clause(u32),
}

/// A literal that was set true.
#[derive(Clone, Copy, Debug)]
pub struct SetLiteral {
    pub lit: u32,
    pub reason: Reason,
}

/// The literals set true, in their order: `truth` says of each literal whether it is, and `place` of each variable
/// where it stands.
#[derive(Drop)]
pub struct Trail {
    pub steps: Vec<SetLiteral>,
    pub truth: Vec<bool>,
    pub place: Vec<usize>,
    ghost ok: { IsTrail steps.items truth.items place.items },
}

impl Trail {
    /// No literal of no variable. It takes no memory.
    pub fn new(alloc: Global) -> Trail
        ensures steps { result.steps.items ≡ [] }
        ensures size { length result.truth.items ≡ 0 }
    {
        Trail {
            steps: Vec::new(alloc),
            truth: Vec::new(alloc),
            place: Vec::new(alloc),
        }
    }

    /// Makes room for a further variable.
    pub fn widen(&mut self) -> Result<(), NoMemory>
        ensures steps { self.new.steps.items ≡ self.old.steps.items }
        ensures size { OnOk result (length self.new.truth.items ≡ length self.old.truth.items + 2) }
    {
        self.place.push(0)?;
        self.truth.extend_from_slice(&[false, false])?;
        Ok(())
    }

    /// Sets a literal true.
    pub fn push(&mut self, lit: u32, reason: Reason) -> Result<(), NoMemory>
        requires fits { lit < length self.old.truth.items }
        requires unset { slice_index_or self.old.truth.items lit false ≡ false }
        requires free { slice_index_or self.old.truth.items (complement_of lit) false ≡ false }
        ensures ok { OnOk result (self.new.steps.items ≡ self.old.steps.items ++ record { lit = lit; reason = reason } ∷ []) }
        ensures size { length self.new.truth.items ≡ length self.old.truth.items }
        ensures err { OnErr result (self.new.steps.items ≡ self.old.steps.items) }
    {
        let at = self.steps.len();
        self.steps.push(SetLiteral { lit, reason })?;
        self.truth[lit as usize] = true;
        self.place[(lit / 2) as usize] = at;
        Ok(())
    }

    /// Unsets all but the first `n`.
    pub fn cut(&mut self, n: usize)
        requires { n ≤ length self.old.steps.items }
        ensures steps { self.new.steps.items ≡ take n self.old.steps.items }
        ensures size { length self.new.truth.items ≡ length self.old.truth.items }
    {
        while self.steps.len() > n {
            if let Some(step) = self.steps.pop() {
                self.truth[step.lit as usize] = false;
            }
        }
    }
}
