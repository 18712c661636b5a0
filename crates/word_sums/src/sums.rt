ghost use Rattle.std.specs.Prelude.{◌≡◌, ◌<◌, ◌≤◌, ◌+◌, ◌*◌, ◌^◌, ◌↔◌, IsTrue, ℕ, Bool, pos, ◌+ℤ◌, ◌-ℤ◌, length, IfOk};
ghost use Rattle.kv_num.specs.Shape.{InShape, wrap_at};
ghost use Rattle.sat_clause.specs.Literals.{is_true, AreBelow};
ghost use Rattle.gate_core.specs.Table.{Agrees, IsLitOf, Grows};
ghost use Rattle.word_sums.specs.Words.{bit, number, word_value, IsWordOf};

use crate::bits::{add_bits, flipped, overflows};
use crate::{Word, WordNum};
use gate_core::Gates;
use kv_base::{NoMemory, Sequence};
use sat_clause::Lit;
use std::alloc::Global;

/// The digits of a sum, and what is carried out of them.
#[derive(Drop)]
pub struct Sum {
    pub word: Word,
    pub carry: Lit,
}

/// Adds two words and a bit.
pub fn add_carried(
    alloc: Global,
    gates: &mut Gates,
    a: &[Lit],
    b: &[Lit],
    carry: Lit,
) -> Result<Sum, NoMemory>
    requires left { IsWordOf gates.old a.now }
    requires right { IsWordOf gates.old b.now }
    requires carry { IsLitOf gates.old carry }
    requires same { length b.now ≡ length a.now }
    ensures len { IfOk result (λ s. length s.word ≡ length a.now) }
    ensures word { IfOk result (λ s. IsWordOf gates.new s.word) }
    ensures carry { IfOk result (λ s. IsLitOf gates.new s.carry) }
    ensures value { IfOk result (λ s. (A : ℕ → Bool) → Agrees A gates.new → number A s.word + 2 ^ length a.now * bit (is_true A s.carry) ≡ number A a.now + number A b.now + bit (is_true A carry)) }
    ensures grows { Grows gates.old gates.new }
{
    let mut word = Sequence::new(alloc);
    let mut out = carry;
    for (i, x) in a.iter().enumerate() {
        let sum = add_bits(gates, *x, b[i], out)?;
        let next = gates.xor(sum.turn, out)?;
        word.push(sum.digit)?;
        out = next;
    }
    Ok(Sum { word, carry: out })
}

/// The sum of two words and a bit as a number of their width, and whether it fits.
fn total(
    alloc: Global,
    gates: &mut Gates,
    a: &Word,
    b: &Word,
    carry: Lit,
    signed: bool,
) -> Result<WordNum, NoMemory>
    requires left { IsWordOf gates.old a.now }
    requires right { IsWordOf gates.old b.now }
    requires carry { IsLitOf gates.old carry }
    requires same { length b.now ≡ length a.now }
    requires some { 0 < length a.now }
    ensures len { IfOk result (λ r. length r.value ≡ length a.now) }
    ensures word { IfOk result (λ r. IsWordOf gates.new r.value) }
    ensures within { IfOk result (λ r. IsLitOf gates.new r.fits) }
    ensures value { IfOk result (λ r. (A : ℕ → Bool) → Agrees A gates.new → word_value A signed r.value ≡ wrap_at (length a.now) signed ((word_value A signed a.now +ℤ word_value A signed b.now) +ℤ pos (bit (is_true A carry)))) }
    ensures fits { IfOk result (λ r. (A : ℕ → Bool) → Agrees A gates.new → IsTrue (is_true A r.fits) ↔ InShape (length a.now) signed ((word_value A signed a.now +ℤ word_value A signed b.now) +ℤ pos (bit (is_true A carry)))) }
    ensures grows { Grows gates.old gates.new }
{
    let x = a.as_slice();
    let y = b.as_slice();
    let top = x.len() - 1;
    let low = add_carried(alloc, gates, &x[..top], &y[..top], carry)?;
    let last = add_bits(gates, x[top], y[top], low.carry)?;
    let over = overflows(gates, low.carry, last.turn, signed)?;
    let mut value = low.word;
    value.push(last.digit)?;
    Ok(WordNum {
        value,
        fits: over.complement(),
    })
}

/// The sum of two words.
pub fn add(
    alloc: Global,
    gates: &mut Gates,
    a: &Word,
    b: &Word,
    signed: bool,
) -> Result<WordNum, NoMemory>
    requires left { IsWordOf gates.old a.now }
    requires right { IsWordOf gates.old b.now }
    requires same { length b.now ≡ length a.now }
    requires some { 0 < length a.now }
    ensures len { IfOk result (λ r. length r.value ≡ length a.now) }
    ensures word { IfOk result (λ r. IsWordOf gates.new r.value) }
    ensures within { IfOk result (λ r. IsLitOf gates.new r.fits) }
    ensures value { IfOk result (λ r. (A : ℕ → Bool) → Agrees A gates.new → word_value A signed r.value ≡ wrap_at (length a.now) signed (word_value A signed a.now +ℤ word_value A signed b.now)) }
    ensures fits { IfOk result (λ r. (A : ℕ → Bool) → Agrees A gates.new → IsTrue (is_true A r.fits) ↔ InShape (length a.now) signed (word_value A signed a.now +ℤ word_value A signed b.now)) }
    ensures grows { Grows gates.old gates.new }
{
    let never = gates.constant(false)?;
    let num = total(alloc, gates, a, b, never, signed)?;
    Ok(num)
}

/// The difference of two words.
pub fn sub(
    alloc: Global,
    gates: &mut Gates,
    a: &Word,
    b: &Word,
    signed: bool,
) -> Result<WordNum, NoMemory>
    requires left { IsWordOf gates.old a.now }
    requires right { IsWordOf gates.old b.now }
    requires same { length b.now ≡ length a.now }
    requires some { 0 < length a.now }
    ensures len { IfOk result (λ r. length r.value ≡ length a.now) }
    ensures word { IfOk result (λ r. IsWordOf gates.new r.value) }
    ensures within { IfOk result (λ r. IsLitOf gates.new r.fits) }
    ensures value { IfOk result (λ r. (A : ℕ → Bool) → Agrees A gates.new → word_value A signed r.value ≡ wrap_at (length a.now) signed (word_value A signed a.now -ℤ word_value A signed b.now)) }
    ensures fits { IfOk result (λ r. (A : ℕ → Bool) → Agrees A gates.new → IsTrue (is_true A r.fits) ↔ InShape (length a.now) signed (word_value A signed a.now -ℤ word_value A signed b.now)) }
    ensures grows { Grows gates.old gates.new }
{
    let turned = complements(alloc, b.as_slice())?;
    let always = gates.constant(true)?;
    let num = total(alloc, gates, a, &turned, always, signed)?;
    Ok(WordNum {
        value: num.value,
        fits: flipped(num.fits, !signed),
    })
}

/// Each literal's complement.
pub fn complements(alloc: Global, a: &[Lit]) -> Result<Word, NoMemory>
    ensures len { IfOk result (λ w. length w ≡ length a.now) }
    ensures word { IfOk result (λ w. (n : ℕ) → AreBelow n a.now → AreBelow n w) }
    ensures value { IfOk result (λ w. (A : ℕ → Bool) → number A w + number A a.now + 1 ≡ 2 ^ length a.now) }
{
    let mut turned = Sequence::new(alloc);
    for x in a {
        turned.push(x.complement())?;
    }
    Ok(turned)
}
