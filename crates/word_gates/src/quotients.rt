ghost use Rattle.std.specs.Prelude.{◌≡◌, ◌<◌, ◌≤◌, ◌+◌, ◌*◌, ◌∷◌, ◌↔◌, nat_lt, not, IsTrue, ℕ, Bool, pos, length, IfOk};
ghost use Rattle.kv_num.specs.Shape.{InShape, wrap_at};
ghost use Rattle.term_core.specs.Term.{quotient_by, remainder_by};
ghost use Rattle.sat_clause.specs.Literals.{is_true};
ghost use Rattle.gate_core.specs.Table.{Agrees, IsLitOf, Grows};
ghost use Rattle.word_sums.specs.Words.{bit, number, word_value, IsWordOf};
ghost use Rattle.word_gates.specs.Words.{IsDivision};

use crate::signs::{absolute_value, negated_where, with_sign};
use gate_core::Gates;
use kv_base::{NoMemory, Sequence};
use sat_clause::Lit;
use std::alloc::Global;
use word_products::masked;
use word_sums::{Word, WordNum, add_carried, any, complements, select};

/// A quotient and what it leaves, without signs.
#[derive(Drop)]
struct Division {
    quotient: Word,
    remainder: Word,
}

/// Whether a divisor was taken away, and what is left.
#[derive(Drop)]
struct Reduced {
    digit: Lit,
    rest: Word,
}

/// The quotient of two words, truncated toward zero, and the remainder (6.5.5). By a divisor 0 both are 0. The remainder
/// fits where the quotient does.
pub fn div_rem(
    alloc: Global,
    gates: &mut Gates,
    a: &Word,
    b: &Word,
    signed: bool,
) -> Result<(WordNum, WordNum), NoMemory>
    requires left { IsWordOf gates.old a.now }
    requires right { IsWordOf gates.old b.now }
    requires same { length b.now ≡ length a.now }
    requires some { 0 < length a.now }
    ensures quotient_len { IfOk result (λ r. length r.0.value ≡ length a.now) }
    ensures remainder_len { IfOk result (λ r. length r.1.value ≡ length a.now) }
    ensures quotient_word { IfOk result (λ r. IsWordOf gates.new r.0.value) }
    ensures remainder_word { IfOk result (λ r. IsWordOf gates.new r.1.value) }
    ensures within { IfOk result (λ r. IsLitOf gates.new r.0.fits) }
    ensures same_fits { IfOk result (λ r. r.1.fits ≡ r.0.fits) }
    ensures quotient { IfOk result (λ r. (A : ℕ → Bool) → Agrees A gates.new → word_value A signed r.0.value ≡ wrap_at (length a.now) signed (quotient_by (word_value A signed a.now) (word_value A signed b.now))) }
    ensures remainder { IfOk result (λ r. (A : ℕ → Bool) → Agrees A gates.new → word_value A signed r.1.value ≡ wrap_at (length a.now) signed (remainder_by (word_value A signed a.now) (word_value A signed b.now))) }
    ensures exact_remainder { IfOk result (λ r. (A : ℕ → Bool) → Agrees A gates.new → word_value A signed r.1.value ≡ remainder_by (word_value A signed a.now) (word_value A signed b.now)) }
    ensures fits { IfOk result (λ r. (A : ℕ → Bool) → Agrees A gates.new → IsTrue (is_true A r.0.fits) ↔ InShape (length a.now) signed (quotient_by (word_value A signed a.now) (word_value A signed b.now))) }
    ensures grows { Grows gates.old gates.new }
{
    let x = absolute_value(alloc, gates, a.as_slice(), signed)?;
    let y = absolute_value(alloc, gates, b.as_slice(), signed)?;
    let exact = divide_or_zero(alloc, gates, x.word.as_slice(), y.word.as_slice())?;
    let negative = gates.xor(x.negative, y.negative)?;
    let digits = exact.quotient.as_slice();
    let quotient = with_sign(alloc, gates, negative, digits, signed)?;
    let left = exact.remainder.as_slice();
    let remainder = negated_where(alloc, gates, left, x.negative)?;
    let fits = quotient.fits;
    Ok((
        quotient,
        WordNum {
            value: remainder,
            fits,
        },
    ))
}

/// The quotient and the remainder of two words without a sign, and 0 and 0 by a divisor 0.
fn divide_or_zero(
    alloc: Global,
    gates: &mut Gates,
    a: &[Lit],
    b: &[Lit],
) -> Result<Division, NoMemory>
    requires left { IsWordOf gates.old a.now }
    requires right { IsWordOf gates.old b.now }
    requires same { length b.now ≡ length a.now }
    ensures quotient_len { IfOk result (λ r. length r.quotient ≡ length a.now) }
    ensures remainder_len { IfOk result (λ r. length r.remainder ≡ length a.now) }
    ensures quotient { IfOk result (λ r. IsWordOf gates.new r.quotient) }
    ensures remainder { IfOk result (λ r. IsWordOf gates.new r.remainder) }
    ensures value { IfOk result (λ r. (A : ℕ → Bool) → Agrees A gates.new → IsDivision (number A a.now) (number A b.now) (number A r.quotient) (number A r.remainder)) }
    ensures grows { Grows gates.old gates.new }
{
    let exact = divide(alloc, gates, a, b)?;
    let some = any(gates, b)?;
    let quotient = masked(alloc, gates, exact.quotient.as_slice(), some)?;
    let remainder = masked(alloc, gates, exact.remainder.as_slice(), some)?;
    Ok(Division {
        quotient,
        remainder,
    })
}

/// The quotient and the remainder of two words without a sign, digit by digit from the top.
fn divide(alloc: Global, gates: &mut Gates, a: &[Lit], b: &[Lit]) -> Result<Division, NoMemory>
    requires left { IsWordOf gates.old a.now }
    requires right { IsWordOf gates.old b.now }
    requires same { length b.now ≡ length a.now }
    ensures quotient_len { IfOk result (λ r. length r.quotient ≡ length a.now) }
    ensures remainder_len { IfOk result (λ r. length r.remainder ≡ length a.now) }
    ensures quotient { IfOk result (λ r. IsWordOf gates.new r.quotient) }
    ensures remainder { IfOk result (λ r. IsWordOf gates.new r.remainder) }
    ensures value { IfOk result (λ r. (A : ℕ → Bool) → Agrees A gates.new → number A r.quotient * number A b.now + number A r.remainder ≡ number A a.now) }
    ensures small { IfOk result (λ r. (A : ℕ → Bool) → Agrees A gates.new → 0 < number A b.now → number A r.remainder < number A b.now) }
    ensures grows { Grows gates.old gates.new }
{
    let mut quotient = Sequence::new(alloc);
    let mut remainder = Sequence::new(alloc);
    for i in 0..a.len() {
        let whole = with_digit(alloc, a[a.len() - 1 - i], remainder.as_slice())?;
        let reduced = reduce(alloc, gates, &whole, b)?;
        let digits = with_digit(alloc, reduced.digit, quotient.as_slice())?;
        quotient = digits;
        remainder = reduced.rest;
    }
    Ok(Division {
        quotient,
        remainder,
    })
}

/// Takes a divisor away from a word that is no longer, where the word's number isn't below it.
fn reduce(
    alloc: Global,
    gates: &mut Gates,
    whole: &Word,
    divisor: &[Lit],
) -> Result<Reduced, NoMemory>
    requires whole { IsWordOf gates.old whole.now }
    requires divisor { IsWordOf gates.old divisor.now }
    requires short { length whole.now ≤ length divisor.now }
    ensures len { IfOk result (λ r. length r.rest ≡ length whole.now) }
    ensures digit { IfOk result (λ r. IsLitOf gates.new r.digit) }
    ensures rest { IfOk result (λ r. IsWordOf gates.new r.rest) }
    ensures taken { IfOk result (λ r. (A : ℕ → Bool) → Agrees A gates.new → is_true A r.digit ≡ not (nat_lt (number A whole.now) (number A divisor.now))) }
    ensures value { IfOk result (λ r. (A : ℕ → Bool) → Agrees A gates.new → number A r.rest + number A divisor.now * bit (is_true A r.digit) ≡ number A whole.now) }
    ensures grows { Grows gates.old gates.new }
{
    let low = &divisor[..whole.len()];
    let high = &divisor[whole.len()..];
    let turned = complements(alloc, low)?;
    let always = gates.constant(true)?;
    let difference = add_carried(alloc, gates, whole.as_slice(), turned.as_slice(), always)?;
    let past = any(gates, high)?;
    let digit = gates.and(difference.carry, past.complement())?;
    let rest = select(alloc, gates, digit, &difference.word, whole)?;
    Ok(Reduced { digit, rest })
}

/// A word with a new lowest literal.
fn with_digit(alloc: Global, digit: Lit, word: &[Lit]) -> Result<Word, NoMemory>
    ensures { IfOk result (λ w. w ≡ digit ∷ word.now) }
{
    let mut whole = Sequence::new(alloc);
    whole.push(digit)?;
    whole.extend_from_slice(word)?;
    Ok(whole)
}
