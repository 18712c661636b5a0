ghost use Rattle.std.specs.Prelude.{◌≡◌, ◌<◌, ◌≤◌, ◌+◌, ◌*◌, ◌&&◌, not, ◌^◌, ℕ, Bool, length, IfOk, OnOk};
ghost use Rattle.kv_num.specs.Bits.{differ};
ghost use Rattle.sat_clause.specs.Literals.{all_hold, is_true, MeetsAll, AreBelow, ClausesAreBelow, AgreeBelow};
ghost use Rattle.gate_core.specs.Table.{gate_value, Agrees, IsGateOf, OnInputs};
ghost use Rattle.gate_clauses.specs.Clauses.{AgreesBelow, Copies};

use crate::clauses::{push_and, push_equal, push_one, push_xor};
use gate_core::{Gate, Gates};
use kv_base::{NoMemory, Sequence};
use sat_clause::{Clauses, Lit, Lits};
use std::alloc::Global;

/// Adds the clauses that give the variable of a gate its truth.
fn push_gate(
    alloc: Global,
    clauses: &mut Clauses,
    at: u64,
    gate: Gate,
    gates: &Gates,
) -> Result<(), NoMemory>
    requires at { at < 2 ^ 41 }
    requires gate { IsGateOf gates.now at gate }
    ensures says { OnOk result ((A : ℕ → Bool) → all_hold A clauses.new ≡ (all_hold A clauses.old && not (differ (A at) (gate_value A at gate)))) }
    ensures below { OnOk result ((n : ℕ) → at < n → ClausesAreBelow n clauses.old → ClausesAreBelow n clauses.new) }
    ensures few { OnOk result (length clauses.new ≤ length clauses.old + 4) }
{
    let v = Lit::new(at, false);
    match gate {
        Gate::False => {
            push_one(alloc, clauses, v.complement())?;
            Ok(())
        }
        Gate::Input(_) => Ok(()),
        Gate::And(a, b) => {
            push_and(alloc, clauses, v, a, b)?;
            Ok(())
        }
        Gate::Xor(a, b) => {
            push_xor(alloc, clauses, v, a, b)?;
            Ok(())
        }
    }
}

/// The clauses of all gates, over the variables of the table: at most four for each gate. An assignment meets them exactly
/// where it gives each variable the truth of its gate, so each pattern of the inputs is extended by exactly one that does.
pub fn gate_clauses(alloc: Global, gates: &Gates) -> Result<Clauses, NoMemory>
    ensures gives { IfOk result (λ cs. (A : ℕ → Bool) → MeetsAll A cs → Agrees A gates.now) }
    ensures meets { IfOk result (λ cs. (A : ℕ → Bool) → Agrees A gates.now → MeetsAll A cs) }
    ensures below { IfOk result (λ cs. ClausesAreBelow (length gates.now) cs) }
    ensures extends { IfOk result (λ cs. (P : ℕ → Bool) → (A : ℕ → Bool) × MeetsAll A cs × OnInputs gates.now P A) }
    ensures only { IfOk result (λ cs. (P A B : ℕ → Bool) → MeetsAll A cs → MeetsAll B cs → OnInputs gates.now P A → OnInputs gates.now P B → AgreeBelow (length gates.now) A B) }
    ensures few { IfOk result (λ cs. length cs ≤ 4 * length gates.now) }
{
    // The law says that a pattern of the inputs gives each variable one truth.
    gates.truths_are_fixed();
    let mut clauses = Sequence::new(alloc);
    for at in 0..gates.len() as u64 {
        push_gate(alloc, &mut clauses, at, gates.gate(at), gates)?;
    }
    Ok(clauses)
}

/// Adds clauses that give the variables from `first` on the truths of literals.
pub fn push_copies(
    alloc: Global,
    clauses: &mut Clauses,
    first: u64,
    lits: &Lits,
) -> Result<(), NoMemory>
    requires small { first + length lits.now < 2 ^ 62 }
    requires lits { AreBelow first lits.now }
    ensures gives { OnOk result ((A : ℕ → Bool) → MeetsAll A clauses.new → Copies A first lits.now (length lits.now)) }
    ensures kept { OnOk result ((A : ℕ → Bool) → MeetsAll A clauses.new → MeetsAll A clauses.old) }
    ensures meets { OnOk result ((A : ℕ → Bool) → MeetsAll A clauses.old → Copies A first lits.now (length lits.now) → MeetsAll A clauses.new) }
    ensures below { OnOk result ((n : ℕ) → first + length lits.now ≤ n → ClausesAreBelow n clauses.old → ClausesAreBelow n clauses.new) }
{
    let all = lits.as_slice();
    for (i, lit) in all.iter().enumerate() {
        push_equal(alloc, clauses, Lit::new(first + i as u64, false), *lit)?;
    }
    Ok(())
}
