ghost use Rattle.std.specs.Prelude.{◌≡◌, ◌<◌, ◌^◌, ◌↔◌, IsTrue, ℕ, Bool, true, pos, ◌+ℤ◌, ◌*ℤ◌, length, IfOk};
ghost use Rattle.kv_num.specs.Shape.{InShape, wrap_at};
ghost use Rattle.sat_clause.specs.Literals.{is_true};
ghost use Rattle.gate_core.specs.Table.{Agrees, IsLitOf, Grows};
ghost use Rattle.word_sums.specs.Words.{bit, number, word_value, IsWordOf};

use crate::products::{Product, Row, masked, upper};
use gate_core::Gates;
use kv_base::{NoMemory, Sequence};
use sat_clause::Lit;
use std::alloc::Global;
use word_sums::{WordNum, above, add_bits, add_carried, complements, equal};

/// The product of two words with a sign. It fits where each bit above its lower half is that half's top bit.
pub(crate) fn signed_mul(
    alloc: Global,
    gates: &mut Gates,
    a: &[Lit],
    b: &[Lit],
) -> Result<WordNum, NoMemory>
    requires left { IsWordOf gates.old a.now }
    requires right { IsWordOf gates.old b.now }
    requires same { length b.now ≡ length a.now }
    requires some { 0 < length a.now }
    ensures len { IfOk result (λ r. length r.value ≡ length a.now) }
    ensures word { IfOk result (λ r. IsWordOf gates.new r.value) }
    ensures within { IfOk result (λ r. IsLitOf gates.new r.fits) }
    ensures value { IfOk result (λ r. (A : ℕ → Bool) → Agrees A gates.new → word_value A true r.value ≡ wrap_at (length a.now) true (word_value A true a.now *ℤ word_value A true b.now)) }
    ensures fits { IfOk result (λ r. (A : ℕ → Bool) → Agrees A gates.new → IsTrue (is_true A r.fits) ↔ InShape (length a.now) true (word_value A true a.now *ℤ word_value A true b.now)) }
    ensures grows { Grows gates.old gates.new }
{
    let exact = signed_product(alloc, gates, a, b)?;
    let low = exact.low.as_slice();
    let top = low.len() - 1;
    let copies = above(alloc, low[top], a.len(), &[])?;
    let fits = equal(gates, &exact.high, &copies)?;
    Ok(WordNum {
        value: exact.low,
        fits,
    })
}

/// The product of two words with a sign, its upper half with one too. The row of the top bit is taken away.
fn signed_product(
    alloc: Global,
    gates: &mut Gates,
    a: &[Lit],
    b: &[Lit],
) -> Result<Product, NoMemory>
    requires left { IsWordOf gates.old a.now }
    requires right { IsWordOf gates.old b.now }
    requires same { length b.now ≡ length a.now }
    requires some { 0 < length a.now }
    ensures low_len { IfOk result (λ p. length p.low ≡ length a.now) }
    ensures high_len { IfOk result (λ p. length p.high ≡ length a.now) }
    ensures low { IfOk result (λ p. IsWordOf gates.new p.low) }
    ensures high { IfOk result (λ p. IsWordOf gates.new p.high) }
    ensures value { IfOk result (λ p. (A : ℕ → Bool) → Agrees A gates.new → pos (number A p.low) +ℤ (word_value A true p.high *ℤ pos (2 ^ length a.now)) ≡ word_value A true a.now *ℤ word_value A true b.now) }
    ensures grows { Grows gates.old gates.new }
{
    let top = b.len() - 1;
    let rows = signed_rows(alloc, gates, a, &b[..top])?;
    let row = masked(alloc, gates, a, b[top])?;
    let turned = complements(alloc, row.as_slice())?;
    let always = gates.constant(true)?;
    let last = add_signed(
        alloc,
        gates,
        rows.high.as_slice(),
        turned.as_slice(),
        always,
    )?;
    let mut low = rows.low;
    low.push(last.digit)?;
    Ok(Product {
        low,
        high: last.rest,
    })
}

/// The sum of the rows of a product of a word with a sign and one without.
fn signed_rows(alloc: Global, gates: &mut Gates, a: &[Lit], b: &[Lit]) -> Result<Product, NoMemory>
    requires left { IsWordOf gates.old a.now }
    requires right { IsWordOf gates.old b.now }
    requires some { 0 < length a.now }
    ensures low_len { IfOk result (λ p. length p.low ≡ length b.now) }
    ensures high_len { IfOk result (λ p. length p.high ≡ length a.now) }
    ensures low { IfOk result (λ p. IsWordOf gates.new p.low) }
    ensures high { IfOk result (λ p. IsWordOf gates.new p.high) }
    ensures value { IfOk result (λ p. (A : ℕ → Bool) → Agrees A gates.new → pos (number A p.low) +ℤ (word_value A true p.high *ℤ pos (2 ^ length b.now)) ≡ word_value A true a.now *ℤ pos (number A b.now)) }
    ensures grows { Grows gates.old gates.new }
{
    let never = gates.constant(false)?;
    let mut low = Sequence::new(alloc);
    let mut high = masked(alloc, gates, a, never)?;
    for y in b {
        let masked = masked(alloc, gates, a, *y)?;
        let row = add_signed(alloc, gates, high.as_slice(), masked.as_slice(), never)?;
        low.push(row.digit)?;
        high = row.rest;
    }
    Ok(Product { low, high })
}

/// Adds two words with a sign and a bit, without loss.
fn add_signed(
    alloc: Global,
    gates: &mut Gates,
    a: &[Lit],
    b: &[Lit],
    carry: Lit,
) -> Result<Row, NoMemory>
    requires left { IsWordOf gates.old a.now }
    requires right { IsWordOf gates.old b.now }
    requires carry { IsLitOf gates.old carry }
    requires same { length b.now ≡ length a.now }
    requires some { 0 < length a.now }
    ensures len { IfOk result (λ r. length r.rest ≡ length a.now) }
    ensures digit { IfOk result (λ r. IsLitOf gates.new r.digit) }
    ensures rest { IfOk result (λ r. IsWordOf gates.new r.rest) }
    ensures value { IfOk result (λ r. (A : ℕ → Bool) → Agrees A gates.new → pos (bit (is_true A r.digit)) +ℤ (word_value A true r.rest *ℤ pos 2) ≡ (word_value A true a.now +ℤ word_value A true b.now) +ℤ pos (bit (is_true A carry))) }
    ensures grows { Grows gates.old gates.new }
{
    let top = a.len() - 1;
    let low = add_carried(alloc, gates, &a[..top], &b[..top], carry)?;
    let last = add_bits(gates, a[top], b[top], low.carry)?;
    let sign = gates.xor(last.digit, last.turn)?;
    let mut word = low.word;
    word.push(last.digit)?;
    let digits = word.as_slice();
    let rest = upper(alloc, digits, sign)?;
    Ok(Row {
        digit: digits[0],
        rest,
    })
}
