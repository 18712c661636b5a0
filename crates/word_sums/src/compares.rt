ghost use Rattle.std.specs.Prelude.{◌≡◌, ◌<◌, ◌+◌, ◌*◌, ◌^◌, ◌==◌, nat_lt, ◌↔◌, IsTrue, ℕ, Bool, pos, ◌+ℤ◌, ◌<ℤ◌, length, if◌then◌else◌, IfOk};
ghost use Rattle.std.specs.Ordering.{int_eq};
ghost use Rattle.kv_num.specs.Shape.{below_at};
ghost use Rattle.sat_clause.specs.Literals.{is_true, AreBelow};
ghost use Rattle.gate_core.specs.Table.{Agrees, IsLitOf, Grows};
ghost use Rattle.word_sums.specs.Words.{bit, number, word_value, IsWordOf};

use crate::Word;
use crate::bits::{choose, flipped, lower_bit};
use gate_core::Gates;
use kv_base::{NoMemory, Sequence};
use sat_clause::Lit;
use std::alloc::Global;

/// The first word where the test is true, and else the second.
#[tactic(auto, using(crate::proofs::Values::select_value))]
pub fn select(
    alloc: Global,
    gates: &mut Gates,
    test: Lit,
    a: &Word,
    b: &Word,
) -> Result<Word, NoMemory>
    requires test { IsLitOf gates.old test }
    requires left { IsWordOf gates.old a.now }
    requires right { IsWordOf gates.old b.now }
    requires same { length b.now ≡ length a.now }
    ensures len { IfOk result (λ w. length w ≡ length a.now) }
    ensures word { IfOk result (λ w. IsWordOf gates.new w) }
    ensures value { IfOk result (λ w. (A : ℕ → Bool) → Agrees A gates.new → number A w ≡ (if is_true A test then number A a.now else number A b.now)) }
    ensures whole { IfOk result (λ w. (A : ℕ → Bool) (signed : Bool) → Agrees A gates.new → word_value A signed w ≡ (if is_true A test then word_value A signed a.now else word_value A signed b.now)) }
    ensures grows { Grows gates.old gates.new }
{
    let word = chosen_word(alloc, gates, test, a, b)?;
    Ok(word)
}

/// The digits of the first word where the test is true, and else of the second.
fn chosen_word(
    alloc: Global,
    gates: &mut Gates,
    test: Lit,
    a: &Word,
    b: &Word,
) -> Result<Word, NoMemory>
    requires test { IsLitOf gates.old test }
    requires left { IsWordOf gates.old a.now }
    requires right { IsWordOf gates.old b.now }
    requires same { length b.now ≡ length a.now }
    ensures len { IfOk result (λ w. length w ≡ length a.now) }
    ensures word { IfOk result (λ w. IsWordOf gates.new w) }
    ensures value { IfOk result (λ w. (A : ℕ → Bool) → Agrees A gates.new → number A w ≡ (if is_true A test then number A a.now else number A b.now)) }
    ensures grows { Grows gates.old gates.new }
{
    let left = a.as_slice();
    let right = b.as_slice();
    let mut word = Sequence::new(alloc);
    for (i, x) in left.iter().enumerate() {
        let chosen = choose(gates, test, *x, right[i])?;
        word.push(chosen)?;
    }
    Ok(word)
}

/// Whether two words have the same number.
#[tactic(auto, using(crate::proofs::Values::equal_value))]
pub fn equal(gates: &mut Gates, a: &Word, b: &Word) -> Result<Lit, NoMemory>
    requires left { IsWordOf gates.old a.now }
    requires right { IsWordOf gates.old b.now }
    requires same { length b.now ≡ length a.now }
    ensures within { IfOk result (IsLitOf gates.new) }
    ensures value { IfOk result (λ l. (A : ℕ → Bool) → Agrees A gates.new → is_true A l ≡ (number A a.now == number A b.now)) }
    ensures whole { IfOk result (λ l. (A : ℕ → Bool) (signed : Bool) → Agrees A gates.new → is_true A l ≡ int_eq (word_value A signed a.now) (word_value A signed b.now)) }
    ensures grows { Grows gates.old gates.new }
{
    let same = equal_digits(gates, a, b)?;
    Ok(same)
}

/// Whether two words have the same digits.
fn equal_digits(gates: &mut Gates, a: &Word, b: &Word) -> Result<Lit, NoMemory>
    requires left { IsWordOf gates.old a.now }
    requires right { IsWordOf gates.old b.now }
    requires same { length b.now ≡ length a.now }
    ensures within { IfOk result (IsLitOf gates.new) }
    ensures value { IfOk result (λ l. (A : ℕ → Bool) → Agrees A gates.new → is_true A l ≡ (number A a.now == number A b.now)) }
    ensures grows { Grows gates.old gates.new }
{
    let left = a.as_slice();
    let right = b.as_slice();
    let mut same = gates.constant(true)?;
    for (i, x) in left.iter().enumerate() {
        let odd = gates.xor(*x, right[i])?;
        let still = gates.and(same, odd.complement())?;
        same = still;
    }
    Ok(same)
}

/// Whether the number of one word without a sign is below the other's.
pub(crate) fn lower(gates: &mut Gates, a: &[Lit], b: &[Lit]) -> Result<Lit, NoMemory>
    requires left { IsWordOf gates.old a.now }
    requires right { IsWordOf gates.old b.now }
    requires same { length b.now ≡ length a.now }
    ensures within { IfOk result (IsLitOf gates.new) }
    ensures value { IfOk result (λ l. (A : ℕ → Bool) → Agrees A gates.new → is_true A l ≡ nat_lt (number A a.now) (number A b.now)) }
    ensures grows { Grows gates.old gates.new }
{
    let mut lower = gates.constant(false)?;
    for (i, x) in a.iter().enumerate() {
        let next = lower_bit(gates, *x, b[i], lower)?;
        lower = next;
    }
    Ok(lower)
}

/// Whether the number of one word is below the other's.
pub fn less(
    alloc: Global,
    gates: &mut Gates,
    a: &Word,
    b: &Word,
    signed: bool,
) -> Result<Lit, NoMemory>
    requires left { IsWordOf gates.old a.now }
    requires right { IsWordOf gates.old b.now }
    requires same { length b.now ≡ length a.now }
    requires some { 0 < length a.now }
    ensures within { IfOk result (IsLitOf gates.new) }
    ensures value { IfOk result (λ l. (A : ℕ → Bool) → Agrees A gates.new → IsTrue (is_true A l) ↔ (word_value A signed a.now <ℤ word_value A signed b.now)) }
    ensures grows { Grows gates.old gates.new }
{
    let x = raised(alloc, a, signed)?;
    let y = raised(alloc, b, signed)?;
    let below = lower(gates, x.as_slice(), y.as_slice())?;
    Ok(below)
}

/// The word of a number that is greater by half the numbers of its width where there is a sign: its top bit turned
/// over.
fn raised(alloc: Global, a: &Word, signed: bool) -> Result<Word, NoMemory>
    requires { 0 < length a.now }
    ensures len { IfOk result (λ w. length w ≡ length a.now) }
    ensures word { IfOk result (λ w. (n : ℕ) → AreBelow n a.now → AreBelow n w) }
    ensures value { IfOk result (λ w. (A : ℕ → Bool) → pos (number A w) ≡ word_value A signed a.now +ℤ pos (below_at (length a.now) signed)) }
{
    let bits = a.as_slice();
    let top = bits.len() - 1;
    let mut word = Sequence::from_slice(alloc, &bits[..top])?;
    word.push(flipped(bits[top], signed))?;
    Ok(word)
}
