ghost use Rattle.std.specs.Prelude.{◌≡◌, ◌<◌, ℕ, Bool, length, IfOk};
ghost use Rattle.kv_num.specs.Shape.{and_at, or_at, xor_at, not_at};
ghost use Rattle.sat_clause.specs.Literals.{is_true, AreBelow};
ghost use Rattle.gate_core.specs.Table.{Agrees, IsLitOf, Grows};
ghost use Rattle.word_sums.specs.Words.{number, word_value, IsWordOf};
ghost use Rattle.word_bits.specs.Bits.{on_bits, on_numbers};

use gate_core::Gates;
use kv_base::{NoMemory, Sequence};
use sat_clause::Lit;
use std::alloc::Global;
use word_sums::{Word, complements};

/// An operation on the bits of two words.
#[derive(Clone, Copy)]
enum BitOp {
    And,
    Or,
    Xor,
}

/// A literal that is true where the operation gives a set bit.
fn bit(gates: &mut Gates, op: BitOp, a: Lit, b: Lit) -> Result<Lit, NoMemory>
    requires left { IsLitOf gates.old a }
    requires right { IsLitOf gates.old b }
    ensures within { IfOk result (IsLitOf gates.new) }
    ensures value { IfOk result (λ l. (A : ℕ → Bool) → Agrees A gates.new → is_true A l ≡ on_bits op (is_true A a) (is_true A b)) }
    ensures grows { Grows gates.old gates.new }
{
    match op {
        BitOp::And => gates.and(a, b),
        BitOp::Or => word_sums::or(gates, a, b),
        BitOp::Xor => gates.xor(a, b),
    }
}

/// An operation bit by bit.
fn bitwise(
    alloc: Global,
    gates: &mut Gates,
    op: BitOp,
    a: &Word,
    b: &Word,
) -> Result<Word, NoMemory>
    requires left { IsWordOf gates.old a.now }
    requires right { IsWordOf gates.old b.now }
    requires same { length b.now ≡ length a.now }
    ensures len { IfOk result (λ w. length w ≡ length a.now) }
    ensures word { IfOk result (λ w. IsWordOf gates.new w) }
    ensures value { IfOk result (λ w. (A : ℕ → Bool) → Agrees A gates.new → number A w ≡ on_numbers op (number A a.now) (number A b.now)) }
    ensures grows { Grows gates.old gates.new }
{
    let left = a.as_slice();
    let right = b.as_slice();
    let mut word = Sequence::new(alloc);
    for (i, x) in left.iter().enumerate() {
        let digit = bit(gates, op, *x, right[i])?;
        word.push(digit)?;
    }
    Ok(word)
}

/// The bits that two words have both (6.5.10).
#[tactic(auto, using(crate::proofs::Words::and_value))]
pub fn and(alloc: Global, gates: &mut Gates, a: &Word, b: &Word) -> Result<Word, NoMemory>
    requires left { IsWordOf gates.old a.now }
    requires right { IsWordOf gates.old b.now }
    requires same { length b.now ≡ length a.now }
    ensures len { IfOk result (λ w. length w ≡ length a.now) }
    ensures word { IfOk result (λ w. IsWordOf gates.new w) }
    ensures value { IfOk result (λ w. (A : ℕ → Bool) (signed : Bool) → Agrees A gates.new → word_value A signed w ≡ and_at (length a.now) signed (word_value A signed a.now) (word_value A signed b.now)) }
    ensures grows { Grows gates.old gates.new }
{
    let word = bitwise(alloc, gates, BitOp::And, a, b)?;
    Ok(word)
}

/// The bits that one of two words has, or both (6.5.12).
#[tactic(auto, using(crate::proofs::Words::or_value))]
pub fn or(alloc: Global, gates: &mut Gates, a: &Word, b: &Word) -> Result<Word, NoMemory>
    requires left { IsWordOf gates.old a.now }
    requires right { IsWordOf gates.old b.now }
    requires same { length b.now ≡ length a.now }
    ensures len { IfOk result (λ w. length w ≡ length a.now) }
    ensures word { IfOk result (λ w. IsWordOf gates.new w) }
    ensures value { IfOk result (λ w. (A : ℕ → Bool) (signed : Bool) → Agrees A gates.new → word_value A signed w ≡ or_at (length a.now) signed (word_value A signed a.now) (word_value A signed b.now)) }
    ensures grows { Grows gates.old gates.new }
{
    let word = bitwise(alloc, gates, BitOp::Or, a, b)?;
    Ok(word)
}

/// The bits that one of two words has, and not both (6.5.11).
#[tactic(auto, using(crate::proofs::Words::xor_value))]
pub fn xor(alloc: Global, gates: &mut Gates, a: &Word, b: &Word) -> Result<Word, NoMemory>
    requires left { IsWordOf gates.old a.now }
    requires right { IsWordOf gates.old b.now }
    requires same { length b.now ≡ length a.now }
    ensures len { IfOk result (λ w. length w ≡ length a.now) }
    ensures word { IfOk result (λ w. IsWordOf gates.new w) }
    ensures value { IfOk result (λ w. (A : ℕ → Bool) (signed : Bool) → Agrees A gates.new → word_value A signed w ≡ xor_at (length a.now) signed (word_value A signed a.now) (word_value A signed b.now)) }
    ensures grows { Grows gates.old gates.new }
{
    let word = bitwise(alloc, gates, BitOp::Xor, a, b)?;
    Ok(word)
}

/// The bits that a word has not (6.5.3.3). It takes no gate.
#[tactic(auto, using(crate::proofs::Words::not_value))]
pub fn not(alloc: Global, a: &Word) -> Result<Word, NoMemory>
    ensures len { IfOk result (λ w. length w ≡ length a.now) }
    ensures word { IfOk result (λ w. (n : ℕ) → AreBelow n a.now → AreBelow n w) }
    ensures value { IfOk result (λ w. (A : ℕ → Bool) (signed : Bool) → word_value A signed w ≡ not_at (length a.now) signed (word_value A signed a.now)) }
{
    let word = complements(alloc, a.as_slice())?;
    Ok(word)
}
