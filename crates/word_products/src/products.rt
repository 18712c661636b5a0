ghost use Rattle.std.specs.Prelude.{◌≡◌, ◌<◌, ◌+◌, ◌*◌, ◌^◌, ◌↔◌, IsTrue, ℕ, Bool, ◌*ℤ◌, [], ◌∷◌, ◌++◌, length, drop, IfOk};
ghost use Rattle.kv_num.specs.Shape.{InShape, wrap_at};
ghost use Rattle.sat_clause.specs.Literals.{is_true};
ghost use Rattle.gate_core.specs.Table.{Agrees, IsLitOf, Grows};
ghost use Rattle.word_sums.specs.Words.{bit, number, word_value, IsWordOf};

use crate::signed_products::signed_mul;
use gate_core::Gates;
use kv_base::{NoMemory, Sequence};
use sat_clause::Lit;
use std::alloc::Global;
use word_sums::{Word, WordNum, add_carried, any};

/// A number of twice a word's width.
#[derive(Drop)]
pub(crate) struct Product {
    pub low: Word,
    pub high: Word,
}

/// A number by its lowest digit and the rest.
#[derive(Drop)]
pub(crate) struct Row {
    pub digit: Lit,
    pub rest: Word,
}

/// The product of two words.
pub fn mul(
    alloc: Global,
    gates: &mut Gates,
    a: &Word,
    b: &Word,
    signed: bool,
) -> Result<WordNum, NoMemory>
    requires left { IsWordOf gates.old a.now }
    requires right { IsWordOf gates.old b.now }
    requires same { length b.now ≡ length a.now }
    requires some { 0 < length a.now }
    ensures len { IfOk result (λ r. length r.value ≡ length a.now) }
    ensures word { IfOk result (λ r. IsWordOf gates.new r.value) }
    ensures within { IfOk result (λ r. IsLitOf gates.new r.fits) }
    ensures value { IfOk result (λ r. (A : ℕ → Bool) → Agrees A gates.new → word_value A signed r.value ≡ wrap_at (length a.now) signed (word_value A signed a.now *ℤ word_value A signed b.now)) }
    ensures fits { IfOk result (λ r. (A : ℕ → Bool) → Agrees A gates.new → IsTrue (is_true A r.fits) ↔ InShape (length a.now) signed (word_value A signed a.now *ℤ word_value A signed b.now)) }
    ensures grows { Grows gates.old gates.new }
{
    if signed {
        return signed_mul(alloc, gates, a.as_slice(), b.as_slice());
    }
    let exact = wide_product(alloc, gates, a.as_slice(), b.as_slice())?;
    let over = any(gates, exact.high.as_slice())?;
    Ok(WordNum {
        value: exact.low,
        fits: over.complement(),
    })
}

/// The product of two words without a sign.
fn wide_product(alloc: Global, gates: &mut Gates, a: &[Lit], b: &[Lit]) -> Result<Product, NoMemory>
    requires left { IsWordOf gates.old a.now }
    requires right { IsWordOf gates.old b.now }
    requires some { 0 < length a.now }
    ensures low_len { IfOk result (λ p. length p.low ≡ length b.now) }
    ensures high_len { IfOk result (λ p. length p.high ≡ length a.now) }
    ensures low { IfOk result (λ p. IsWordOf gates.new p.low) }
    ensures high { IfOk result (λ p. IsWordOf gates.new p.high) }
    ensures value { IfOk result (λ p. (A : ℕ → Bool) → Agrees A gates.new → number A p.low + 2 ^ length b.now * number A p.high ≡ number A a.now * number A b.now) }
    ensures grows { Grows gates.old gates.new }
{
    let never = gates.constant(false)?;
    let mut low = Sequence::new(alloc);
    let mut high = masked(alloc, gates, a, never)?;
    for y in b {
        let row = add_row(alloc, gates, high.as_slice(), a, *y)?;
        low.push(row.digit)?;
        high = row.rest;
    }
    Ok(Product { low, high })
}

/// Adds a word, where a literal is true, to another.
fn add_row(
    alloc: Global,
    gates: &mut Gates,
    high: &[Lit],
    a: &[Lit],
    test: Lit,
) -> Result<Row, NoMemory>
    requires high { IsWordOf gates.old high.now }
    requires word { IsWordOf gates.old a.now }
    requires test { IsLitOf gates.old test }
    requires same { length high.now ≡ length a.now }
    requires some { 0 < length a.now }
    ensures len { IfOk result (λ r. length r.rest ≡ length a.now) }
    ensures digit { IfOk result (λ r. IsLitOf gates.new r.digit) }
    ensures rest { IfOk result (λ r. IsWordOf gates.new r.rest) }
    ensures value { IfOk result (λ r. (A : ℕ → Bool) → Agrees A gates.new → bit (is_true A r.digit) + 2 * number A r.rest ≡ number A high.now + number A a.now * bit (is_true A test)) }
    ensures grows { Grows gates.old gates.new }
{
    let never = gates.constant(false)?;
    let row = masked(alloc, gates, a, test)?;
    let sum = add_carried(alloc, gates, high, row.as_slice(), never)?;
    let digits = sum.word.as_slice();
    let rest = upper(alloc, digits, sum.carry)?;
    Ok(Row {
        digit: digits[0],
        rest,
    })
}

/// A word without its lowest literal, and another at its top.
pub(crate) fn upper(alloc: Global, word: &[Lit], top: Lit) -> Result<Word, NoMemory>
    requires { 0 < length word.now }
    ensures { IfOk result (λ w. w ≡ drop 1 word.now ++ top ∷ []) }
{
    let mut rest = Sequence::from_slice(alloc, &word[1..])?;
    rest.push(top)?;
    Ok(rest)
}

/// The word where a literal is true, and else zero.
pub fn masked(alloc: Global, gates: &mut Gates, word: &[Lit], test: Lit) -> Result<Word, NoMemory>
    requires word { IsWordOf gates.old word.now }
    requires test { IsLitOf gates.old test }
    ensures len { IfOk result (λ w. length w ≡ length word.now) }
    ensures within { IfOk result (λ w. IsWordOf gates.new w) }
    ensures value { IfOk result (λ w. (A : ℕ → Bool) → Agrees A gates.new → number A w ≡ number A word.now * bit (is_true A test)) }
    ensures grows { Grows gates.old gates.new }
{
    let mut row = Sequence::new(alloc);
    for x in word {
        let both = gates.and(*x, test)?;
        row.push(both)?;
    }
    Ok(row)
}
