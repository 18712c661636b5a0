ghost use Rattle.std.specs.Prelude.{◌≡◌, ◌<◌, ◌+◌, ◌-◌, ◌*◌, ◌^◌, ◌==◌, ◌&&◌, ◌||◌, ◌↔◌, IsTrue, not, ℕ, Bool, true, false, pos, ◌-ℤ◌, length, if◌then◌else◌, IfOk};
ghost use Rattle.kv_num.specs.Bits.{differ};
ghost use Rattle.kv_num.specs.Shape.{InShape, wrap_at};
ghost use Rattle.sat_clause.specs.Literals.{is_true};
ghost use Rattle.gate_core.specs.Table.{Agrees, IsLitOf, Grows};
ghost use Rattle.word_sums.specs.Words.{bit, number, signed_number, word_value, IsWordOf};

use gate_core::Gates;
use kv_base::{NoMemory, Sequence};
use sat_clause::Lit;
use std::alloc::Global;
use word_sums::{Word, WordNum, or};

/// A number by its sign and its absolute value.
#[derive(Drop)]
pub(crate) struct Magnitude {
    pub negative: Lit,
    pub word: Word,
}

/// The lower digits of a negated word, and whether a digit of the word itself is set so far.
#[derive(Drop)]
struct Negated {
    word: Word,
    set: Lit,
}

/// The word of the number below 2 to its width that makes nothing with this one, modulo that, where the test is true,
/// and else this one.
pub(crate) fn negated_where(
    alloc: Global,
    gates: &mut Gates,
    word: &[Lit],
    test: Lit,
) -> Result<Word, NoMemory>
    requires word { IsWordOf gates.old word.now }
    requires test { IsLitOf gates.old test }
    requires some { 0 < length word.now }
    ensures len { IfOk result (λ w. length w ≡ length word.now) }
    ensures within { IfOk result (λ w. IsWordOf gates.new w) }
    ensures value { IfOk result (λ w. (A : ℕ → Bool) → Agrees A gates.new → (if is_true A test then number A w + number A word.now else number A w) ≡ (if is_true A test then 2 ^ length word.now * bit (not (number A word.now == 0)) else number A word.now)) }
    ensures grows { Grows gates.old gates.new }
{
    let top = word.len() - 1;
    let low = negated_digits(alloc, gates, &word[..top], test)?;
    let last = negated_digit(gates, test, low.set, word[top])?;
    let mut negated = low.word;
    negated.push(last)?;
    Ok(negated)
}

/// The digits of a word, negated where the test is true.
fn negated_digits(
    alloc: Global,
    gates: &mut Gates,
    word: &[Lit],
    test: Lit,
) -> Result<Negated, NoMemory>
    requires word { IsWordOf gates.old word.now }
    requires test { IsLitOf gates.old test }
    ensures len { IfOk result (λ d. length d.word ≡ length word.now) }
    ensures within { IfOk result (λ d. IsWordOf gates.new d.word) }
    ensures set { IfOk result (λ d. IsLitOf gates.new d.set) }
    ensures some { IfOk result (λ d. (A : ℕ → Bool) → Agrees A gates.new → is_true A d.set ≡ not (number A word.now == 0)) }
    ensures value { IfOk result (λ d. (A : ℕ → Bool) → Agrees A gates.new → (if is_true A test then number A d.word + number A word.now else number A d.word) ≡ (if is_true A test then 2 ^ length word.now * bit (not (number A word.now == 0)) else number A word.now)) }
    ensures grows { Grows gates.old gates.new }
{
    let mut negated = Sequence::new(alloc);
    let mut set = gates.constant(false)?;
    for x in word {
        let digit = negated_digit(gates, test, set, *x)?;
        let more = or(gates, set, *x)?;
        negated.push(digit)?;
        set = more;
    }
    Ok(Negated { word: negated, set })
}

/// A digit, turned over where the test is true and a lower digit is set.
fn negated_digit(gates: &mut Gates, test: Lit, set: Lit, digit: Lit) -> Result<Lit, NoMemory>
    requires test { IsLitOf gates.old test }
    requires set { IsLitOf gates.old set }
    requires digit { IsLitOf gates.old digit }
    ensures within { IfOk result (IsLitOf gates.new) }
    ensures value { IfOk result (λ l. (A : ℕ → Bool) → Agrees A gates.new → is_true A l ≡ differ (is_true A test && is_true A set) (is_true A digit)) }
    ensures grows { Grows gates.old gates.new }
{
    let turn = gates.and(test, set)?;
    let turned = gates.xor(turn, digit)?;
    Ok(turned)
}

/// A literal that is true where the number of a word is negative.
pub(crate) fn sign(gates: &mut Gates, word: &[Lit], signed: bool) -> Result<Lit, NoMemory>
    requires word { IsWordOf gates.old word.now }
    requires some { 0 < length word.now }
    ensures within { IfOk result (IsLitOf gates.new) }
    ensures value { IfOk result (λ l. (A : ℕ → Bool) → Agrees A gates.new → word_value A signed word.now ≡ pos (number A word.now) -ℤ pos (2 ^ length word.now * bit (is_true A l))) }
    ensures plain { IfOk result (λ l. (A : ℕ → Bool) → Agrees A gates.new → signed ≡ false → is_true A l ≡ false) }
    ensures grows { Grows gates.old gates.new }
{
    if signed {
        return Ok(word[word.len() - 1]);
    }
    let never = gates.constant(false)?;
    Ok(never)
}

/// The sign and the absolute value of a word's number.
pub(crate) fn absolute_value(
    alloc: Global,
    gates: &mut Gates,
    word: &[Lit],
    signed: bool,
) -> Result<Magnitude, NoMemory>
    requires word { IsWordOf gates.old word.now }
    requires some { 0 < length word.now }
    ensures len { IfOk result (λ m. length m.word ≡ length word.now) }
    ensures negative { IfOk result (λ m. IsLitOf gates.new m.negative) }
    ensures word { IfOk result (λ m. IsWordOf gates.new m.word) }
    ensures value { IfOk result (λ m. (A : ℕ → Bool) → Agrees A gates.new → word_value A signed word.now ≡ signed_number (is_true A m.negative) (number A m.word)) }
    ensures plain { IfOk result (λ m. (A : ℕ → Bool) → Agrees A gates.new → signed ≡ false → is_true A m.negative ≡ false) }
    ensures grows { Grows gates.old gates.new }
{
    let negative = sign(gates, word, signed)?;
    let absolute = negated_where(alloc, gates, word, negative)?;
    Ok(Magnitude {
        negative,
        word: absolute,
    })
}

/// The number of a sign and an absolute value, as a number of the absolute value's width, and whether it fits.
pub(crate) fn with_sign(
    alloc: Global,
    gates: &mut Gates,
    negative: Lit,
    absolute: &[Lit],
    signed: bool,
) -> Result<WordNum, NoMemory>
    requires test { IsLitOf gates.old negative }
    requires absolute { IsWordOf gates.old absolute.now }
    requires some { 0 < length absolute.now }
    ensures len { IfOk result (λ r. length r.value ≡ length absolute.now) }
    ensures word { IfOk result (λ r. IsWordOf gates.new r.value) }
    ensures within { IfOk result (λ r. IsLitOf gates.new r.fits) }
    ensures value { IfOk result (λ r. (A : ℕ → Bool) → Agrees A gates.new → word_value A signed r.value ≡ wrap_at (length absolute.now) signed (signed_number (is_true A negative) (number A absolute.now))) }
    ensures fits { IfOk result (λ r. (A : ℕ → Bool) → Agrees A gates.new → (signed ≡ false → is_true A negative ≡ false) → IsTrue (is_true A r.fits) ↔ InShape (length absolute.now) signed (signed_number (is_true A negative) (number A absolute.now))) }
    ensures grows { Grows gates.old gates.new }
{
    let value = negated_where(alloc, gates, absolute, negative)?;
    let top = absolute.len() - 1;
    let bits = value.as_slice();
    let fits = is_in_range(gates, negative, absolute[top], bits[top], signed)?;
    Ok(WordNum { value, fits })
}

/// Whether a number is in the range of its width, from its sign and the top bits of its absolute value and of its
/// word. With a sign the least number's absolute value is one past the greatest number.
fn is_in_range(
    gates: &mut Gates,
    negative: Lit,
    absolute_top: Lit,
    word_top: Lit,
    signed: bool,
) -> Result<Lit, NoMemory>
    requires test { IsLitOf gates.old negative }
    requires absolute { IsLitOf gates.old absolute_top }
    requires word { IsLitOf gates.old word_top }
    ensures within { IfOk result (IsLitOf gates.new) }
    ensures value { IfOk result (λ l. (A : ℕ → Bool) → Agrees A gates.new → is_true A l ≡ not (signed && (is_true A absolute_top && not (is_true A negative && is_true A word_top)))) }
    ensures grows { Grows gates.old gates.new }
{
    if signed {
        let least = gates.and(negative, word_top)?;
        let past = gates.and(absolute_top, least.complement())?;
        return Ok(past.complement());
    }
    gates.constant(true)
}
