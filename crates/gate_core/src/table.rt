ghost use Rattle.std.specs.Prelude.{◌≡◌, ◌≢◌, ◌<◌, ◌≤◌, ◌+◌, ◌*◌, ◌^◌, ℕ, Bool, false, ◌&&◌, [], ◌∷◌, ◌++◌, length, ◌⊎◌, ◌↔◌, IsTrue, IfOk, OnOk, OnErr, MatchOption, if◌then◌else◌};
ghost use Rattle.kv_num.specs.Bits.{differ};
ghost use Rattle.sat_clause.specs.Literals.{variable_of, complement_of, is_true};
ghost use Rattle.gate_core.specs.declared.gate.Gate.TheVariants as Gate;
ghost use Rattle.gate_core.specs.Table.{gate_at, gate_value, Agrees, IsLitOf, IsVarying, IsGateOf, IsTable, Grows, Places, HasTruths, HasOneTruth, inputs_of};

use crate::Gate;
use indexmap::IndexSet;
use kv_base::{Copied, NoMemory, Sequence};
use sat_clause::Lit;
use std::alloc::{AllocError, Global};
use std::marker::Model;

/// No table is longer.
const LIMIT: usize = 1 << 40;

/// A list of gates, in which equal gates are shared. A table of 2^40 entries takes no more, and answers that it is out of
/// memory.
#[derive(Drop)]
pub struct Gates {
    gates: IndexSet<Gate>,
}

impl Model for Gates {
    ghost use Rattle.std.specs.Prelude.{List, ◌≤◌, ◌^◌, length};
    ghost use Rattle.gate_core.specs.declared.gate.Gate.{Gate};
    ghost use Rattle.gate_core.specs.Table.{IsTable};

    ghost Value = { List Gate };

    ghost view = { λ s. s.gates.keys };

    ghost invariant = { λ s. IsTable s.gates.keys × (length s.gates.keys ≤ 2 ^ 40) };
}

impl Gates {
    /// The empty table. It takes no memory.
    pub fn new(alloc: Global) -> Gates
        ensures { result ≡ [] }
    {
        Gates {
            gates: IndexSet::new(alloc),
        }
    }

    /// How many entries there are.
    pub fn len(&self) -> usize
        ensures length { result ≡ length self.now }
        ensures bound { result ≤ 2 ^ 40 }
    {
        self.gates.len()
    }

    /// Whether there is no entry.
    pub fn is_empty(&self) -> bool
        ensures { IsTrue result ↔ (self.now ≡ []) }
    {
        self.gates.is_empty()
    }

    /// The gate of a variable.
    pub fn gate(&self, variable: u64) -> Gate
        requires { variable < length self.now }
        ensures { result ≡ gate_at self.now variable }
    {
        self.gates[variable as usize]
    }

    /// The places of the inputs, in their order.
    #[tactic(auto, using(crate::proofs::Inputs::inputs_more))]
    pub fn inputs(&self, alloc: Global) -> Result<Sequence<u64>, NoMemory>
        ensures { IfOk result (λ places. places ≡ inputs_of self.now) }
    {
        let mut places = Sequence::new(alloc);
        for at in 0..self.gates.len() {
            push_input(&mut places, self.gate(at as u64))?;
        }
        Ok(places)
    }

    /// What every table keeps, and that a pattern of its inputs gives each of its variables one truth. This function
    /// computes nothing: its contract is the law.
    pub fn truths_are_fixed(&self)
        ensures table { IsTable self.now }
        ensures exist { HasTruths self.now }
        ensures only { HasOneTruth self.now }
    {
        let _ = &self.gates;
    }

    /// The place of a gate, which is added where it does not stand yet.
    fn place(&mut self, gate: Gate) -> Result<u64, NoMemory>
        requires { IsGateOf self.old (length self.old) gate }
        ensures stored { IfOk result (λ i. (i < length self.new) × (i < 2 ^ 40) × (gate_at self.new i ≡ gate)) }
        ensures added { OnOk result (Places self.old gate self.new) }
        ensures grows { Grows self.old self.new }
        ensures err { OnErr result (self.new ≡ self.old) }
    {
        if self.gates.len() >= LIMIT {
            return Err(AllocError);
        }
        let (at, _) = self.gates.insert_full(gate)?;
        Ok(at as u64)
    }

    /// The literal of a gate, which is added where it does not stand yet.
    fn literal(&mut self, gate: Gate) -> Result<Lit, NoMemory>
        requires { IsGateOf self.old (length self.old) gate }
        ensures within { IfOk result (IsLitOf self.new) }
        ensures value { IfOk result (λ l. (A : ℕ → Bool) → Agrees A self.new → is_true A l ≡ gate_value A (variable_of l) gate) }
        ensures room { length self.new ≤ length self.old + 1 }
        ensures grows { Grows self.old self.new }
        ensures err { OnErr result (self.new ≡ self.old) }
    {
        let at = self.place(gate)?;
        Ok(Lit::new(at, false))
    }

    /// Adds an input at the table's end.
    pub fn input(&mut self) -> Result<Lit, NoMemory>
        ensures literal { IfOk result (λ l. l ≡ 2 * length self.old) }
        ensures added { OnOk result (self.new ≡ self.old ++ Gate.Input (length self.old) ∷ []) }
        ensures grows { Grows self.old self.new }
        ensures err { OnErr result (self.new ≡ self.old) }
    {
        let number = self.gates.len() as u64;
        let at = self.place(Gate::Input(number))?;
        Ok(Lit::new(at, false))
    }

    /// A literal that always has the given truth.
    #[tactic(auto, using(crate::proofs::Bits::flips))]
    pub fn constant(&mut self, truth: bool) -> Result<Lit, NoMemory>
        ensures within { IfOk result (IsLitOf self.new) }
        ensures value { IfOk result (λ l. (A : ℕ → Bool) → Agrees A self.new → is_true A l ≡ truth) }
        ensures room { length self.new ≤ length self.old + 1 }
        ensures grows { Grows self.old self.new }
        ensures err { OnErr result (self.new ≡ self.old) }
    {
        let never = self.literal(Gate::False)?;
        Ok(if truth { never.complement() } else { never })
    }

    /// The truth that a literal always has, where its gate is the constant.
    fn known(&self, l: Lit) -> Option<bool>
        requires { IsLitOf self.now l }
        ensures { MatchOption result (IsVarying (gate_at self.now (variable_of l))) (λ truth. (A : ℕ → Bool) → Agrees A self.now → is_true A l ≡ truth) }
    {
        match self.gate(l.variable()) {
            Gate::False => Some(l.is_complement()),
            Gate::Input(_) | Gate::And(_, _) | Gate::Xor(_, _) => None,
        }
    }

    /// A literal that is true exactly where both are.
    #[tactic(auto, using(crate::proofs::Bits::flips))]
    pub fn and(&mut self, a: Lit, b: Lit) -> Result<Lit, NoMemory>
        requires left { IsLitOf self.old a }
        requires right { IsLitOf self.old b }
        ensures within { IfOk result (IsLitOf self.new) }
        ensures value { IfOk result (λ l. (A : ℕ → Bool) → Agrees A self.new → is_true A l ≡ (is_true A a && is_true A b)) }
        ensures room { length self.new ≤ length self.old + 1 }
        ensures grows { Grows self.old self.new }
        ensures err { OnErr result (self.new ≡ self.old) }
    {
        if a == b {
            return Ok(a);
        }
        if a == b.complement() {
            return self.constant(false);
        }
        match self.known(a) {
            Some(true) => return Ok(b),
            Some(false) => return Ok(a),
            None => {}
        }
        match self.known(b) {
            Some(true) => return Ok(a),
            Some(false) => return Ok(b),
            None => {}
        }
        if a.variable() < b.variable() {
            self.literal(Gate::And(a, b))
        } else {
            self.literal(Gate::And(b, a))
        }
    }

    /// A literal that is true exactly where one of them is.
    #[tactic(auto, using(crate::proofs::Bits::flips))]
    pub fn xor(&mut self, a: Lit, b: Lit) -> Result<Lit, NoMemory>
        requires left { IsLitOf self.old a }
        requires right { IsLitOf self.old b }
        ensures within { IfOk result (IsLitOf self.new) }
        ensures value { IfOk result (λ l. (A : ℕ → Bool) → Agrees A self.new → is_true A l ≡ differ (is_true A a) (is_true A b)) }
        ensures room { length self.new ≤ length self.old + 1 }
        ensures grows { Grows self.old self.new }
        ensures err { OnErr result (self.new ≡ self.old) }
    {
        if a == b {
            return self.constant(false);
        }
        if a == b.complement() {
            return self.constant(true);
        }
        match self.known(a) {
            Some(true) => return Ok(b.complement()),
            Some(false) => return Ok(b),
            None => {}
        }
        match self.known(b) {
            Some(true) => return Ok(a.complement()),
            Some(false) => return Ok(a),
            None => {}
        }
        let odd = self.xor_of_variables(a.variable(), b.variable())?;
        let half = flipped(odd, a.is_complement());
        Ok(flipped(half, b.is_complement()))
    }

    /// A literal that is true exactly where one of two variables is.
    #[tactic(auto, using(crate::proofs::Bits::flips))]
    fn xor_of_variables(&mut self, a: u64, b: u64) -> Result<Lit, NoMemory>
        requires left { (a < length self.old) × IsVarying (gate_at self.old a) }
        requires right { (b < length self.old) × IsVarying (gate_at self.old b) }
        requires two { a ≢ b }
        ensures within { IfOk result (IsLitOf self.new) }
        ensures value { IfOk result (λ l. (A : ℕ → Bool) → Agrees A self.new → is_true A l ≡ differ (A a) (A b)) }
        ensures room { length self.new ≤ length self.old + 1 }
        ensures grows { Grows self.old self.new }
        ensures err { OnErr result (self.new ≡ self.old) }
    {
        let _ = self.len();
        if a < b {
            self.literal(Gate::Xor(Lit::new(a, false), Lit::new(b, false)))
        } else {
            self.literal(Gate::Xor(Lit::new(b, false), Lit::new(a, false)))
        }
    }
}

impl Copied for Gates {
    fn copy(&self, _alloc: Global) -> Result<Gates, NoMemory> {
        let gates = self.gates.clone()?;
        Ok(Gates { gates })
    }
}

/// Puts the place of an input at the end.
fn push_input(places: &mut Sequence<u64>, gate: Gate) -> Result<(), NoMemory>
    ensures { OnOk result (places.new ≡ places.old ++ inputs_of (gate ∷ [])) }
{
    match gate {
        Gate::Input(number) => places.push(number),
        Gate::False | Gate::And(_, _) | Gate::Xor(_, _) => Ok(()),
    }
}

/// A literal, or its complement where `flip` is true.
fn flipped(l: Lit, flip: bool) -> Lit
    ensures { result ≡ (if flip then complement_of l else l) }
{
    if flip { l.complement() } else { l }
}
