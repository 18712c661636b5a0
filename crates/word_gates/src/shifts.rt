ghost use Rattle.std.specs.Prelude.{◌≡◌, ◌<◌, ◌≤◌, ◌+◌, ◌-◌, ◌*◌, ◌%◌, ◌^◌, ◌&&◌, ◌||◌, ◌++◌, nat_lt, not, ◌↔◌, IsTrue, ℕ, Bool, pos, ◌-ℤ◌, ◌≤ℤ◌, length, replicate, if◌then◌else◌, IfOk};
ghost use Rattle.kv_num.specs.Shift.{left_of, right_of};
ghost use Rattle.kv_num.specs.Shape.{InShape, wrap_at};
ghost use Rattle.term_core.specs.Term.{left_by, right_by};
ghost use Rattle.sat_clause.specs.Literals.{is_true};
ghost use Rattle.gate_core.specs.Table.{Agrees, IsLitOf, Grows};
ghost use Rattle.word_sums.specs.Words.{number, word_value, continued_value, IsWordOf};

use crate::distances::{distance_bits, is_below};
use crate::signs::sign;
use gate_core::Gates;
use kv_base::{NoMemory, Sequence};
use sat_clause::Lit;
use std::alloc::Global;
use word_products::masked;
use word_sums::{Word, WordNum, above, any, or, select};

/// A word, and whether a bit was lost past its top.
#[derive(Drop)]
struct Raised {
    word: Word,
    lost: Lit,
}

/// The product of a word's number and 2 to the number of another without a sign (6.5.7), which may have another width.
/// By a distance that isn't below the first word's width the result is 0. A negative number never fits.
pub fn shift_left(
    alloc: Global,
    gates: &mut Gates,
    a: &Word,
    b: &Word,
    signed: bool,
) -> Result<WordNum, NoMemory>
    requires left { IsWordOf gates.old a.now }
    requires right { IsWordOf gates.old b.now }
    requires some { 0 < length a.now }
    ensures len { IfOk result (λ r. length r.value ≡ length a.now) }
    ensures word { IfOk result (λ r. IsWordOf gates.new r.value) }
    ensures within { IfOk result (λ r. IsLitOf gates.new r.fits) }
    ensures value { IfOk result (λ r. (A : ℕ → Bool) (sign : Bool) → Agrees A gates.new → word_value A signed r.value ≡ wrap_at (length a.now) signed (left_by (length a.now) (length b.now) (word_value A signed a.now) (word_value A sign b.now))) }
    ensures fits { IfOk result (λ r. (A : ℕ → Bool) (sign : Bool) → Agrees A gates.new → IsTrue (is_true A r.fits) ↔ ((pos 0 ≤ℤ word_value A signed a.now) × InShape (length a.now) signed (left_by (length a.now) (length b.now) (word_value A signed a.now) (word_value A sign b.now)))) }
    ensures grows { Grows gates.old gates.new }
{
    let bits = a.as_slice();
    let distance = b.as_slice();
    let used = distance_bits(bits.len()).min(distance.len());
    let near = is_below(gates, distance, bits.len())?;
    let moved = left_within(alloc, gates, bits, &distance[..used], signed)?;
    let value = masked(alloc, gates, moved.value.as_slice(), near)?;
    let negative = sign(gates, bits, signed)?;
    let past = gates.and(near, moved.fits.complement())?;
    let over = or(gates, past, negative)?;
    Ok(WordNum {
        value,
        fits: over.complement(),
    })
}

/// The quotient of a word's number by 2 to the number of another without a sign, rounded down (6.5.7). The other may
/// have another width. By a distance that isn't below the first word's width the result is 0.
pub fn shift_right(
    alloc: Global,
    gates: &mut Gates,
    a: &Word,
    b: &Word,
    signed: bool,
) -> Result<Word, NoMemory>
    requires left { IsWordOf gates.old a.now }
    requires right { IsWordOf gates.old b.now }
    requires some { 0 < length a.now }
    ensures len { IfOk result (λ w. length w ≡ length a.now) }
    ensures word { IfOk result (λ w. IsWordOf gates.new w) }
    ensures value { IfOk result (λ w. (A : ℕ → Bool) (sign : Bool) → Agrees A gates.new → word_value A signed w ≡ wrap_at (length a.now) signed (right_by (length a.now) (length b.now) (word_value A signed a.now) (word_value A sign b.now))) }
    ensures exact { IfOk result (λ w. (A : ℕ → Bool) (sign : Bool) → Agrees A gates.new → word_value A signed w ≡ right_by (length a.now) (length b.now) (word_value A signed a.now) (word_value A sign b.now)) }
    ensures grows { Grows gates.old gates.new }
{
    let bits = a.as_slice();
    let distance = b.as_slice();
    let used = distance_bits(bits.len()).min(distance.len());
    let near = is_below(gates, distance, bits.len())?;
    let fill = sign(gates, bits, signed)?;
    let moved = lower(alloc, gates, bits, &distance[..used], fill)?;
    let word = masked(alloc, gates, moved.as_slice(), near)?;
    Ok(word)
}

/// The product of a word's number and 2 to the number of a distance, each bit of which is a number of places within the
/// word. A negative number never fits.
fn left_within(
    alloc: Global,
    gates: &mut Gates,
    bits: &[Lit],
    distance: &[Lit],
    signed: bool,
) -> Result<WordNum, NoMemory>
    requires word { IsWordOf gates.old bits.now }
    requires distance { IsWordOf gates.old distance.now }
    requires some { 0 < length bits.now }
    requires short { (i : ℕ) → i < length distance.now → 2 ^ i < length bits.now }
    requires few { length distance.now ≤ 64 }
    ensures len { IfOk result (λ r. length r.value ≡ length bits.now) }
    ensures word { IfOk result (λ r. IsWordOf gates.new r.value) }
    ensures within { IfOk result (λ r. IsLitOf gates.new r.fits) }
    ensures value { IfOk result (λ r. (A : ℕ → Bool) → Agrees A gates.new → word_value A signed r.value ≡ wrap_at (length bits.now) signed (left_of (word_value A signed bits.now) (number A distance.now))) }
    ensures fits { IfOk result (λ r. (A : ℕ → Bool) → Agrees A gates.new → IsTrue (is_true A r.fits) ↔ ((pos 0 ≤ℤ word_value A signed bits.now) × InShape (length bits.now) signed (left_of (word_value A signed bits.now) (number A distance.now)))) }
    ensures grows { Grows gates.old gates.new }
{
    let raised = raise(alloc, gates, bits, distance)?;
    let top = bits.len() - 1;
    let digits = raised.word.as_slice();
    let over = past_top(gates, raised.lost, digits[top], signed)?;
    Ok(WordNum {
        value: raised.word,
        fits: over.complement(),
    })
}

/// Whether a shifted number is past its width's range: a bit was lost, or with a sign its top bit is set.
fn past_top(gates: &mut Gates, lost: Lit, top: Lit, signed: bool) -> Result<Lit, NoMemory>
    requires lost { IsLitOf gates.old lost }
    requires top { IsLitOf gates.old top }
    ensures within { IfOk result (IsLitOf gates.new) }
    ensures value { IfOk result (λ l. (A : ℕ → Bool) → Agrees A gates.new → is_true A l ≡ (is_true A lost || (signed && is_true A top))) }
    ensures grows { Grows gates.old gates.new }
{
    if signed {
        return or(gates, lost, top);
    }
    Ok(lost)
}

/// Moves a word up, by as many places as a distance says, each bit of which is a number of places within the word.
fn raise(
    alloc: Global,
    gates: &mut Gates,
    bits: &[Lit],
    distance: &[Lit],
) -> Result<Raised, NoMemory>
    requires word { IsWordOf gates.old bits.now }
    requires distance { IsWordOf gates.old distance.now }
    requires short { (i : ℕ) → i < length distance.now → 2 ^ i < length bits.now }
    requires few { length distance.now ≤ 64 }
    ensures len { IfOk result (λ r. length r.word ≡ length bits.now) }
    ensures word { IfOk result (λ r. IsWordOf gates.new r.word) }
    ensures lost { IfOk result (λ r. IsLitOf gates.new r.lost) }
    ensures value { IfOk result (λ r. (A : ℕ → Bool) → Agrees A gates.new → number A r.word ≡ number A bits.now * 2 ^ number A distance.now % 2 ^ length bits.now) }
    ensures over { IfOk result (λ r. (A : ℕ → Bool) → Agrees A gates.new → is_true A r.lost ≡ not (nat_lt (number A bits.now * 2 ^ number A distance.now) (2 ^ length bits.now))) }
    ensures grows { Grows gates.old gates.new }
{
    let mut word = Sequence::from_slice(alloc, bits)?;
    let mut lost = gates.constant(false)?;
    for (i, test) in distance.iter().enumerate() {
        let raised = raise_where(alloc, gates, &word, lost, *test, 1 << i)?;
        word = raised.word;
        lost = raised.lost;
    }
    Ok(Raised { word, lost })
}

/// Moves a word up by some places where a literal is true. The choice is turned over, so that each bit that becomes
/// known makes one gate.
fn raise_where(
    alloc: Global,
    gates: &mut Gates,
    word: &Word,
    lost: Lit,
    test: Lit,
    places: usize,
) -> Result<Raised, NoMemory>
    requires word { IsWordOf gates.old word.now }
    requires lost { IsLitOf gates.old lost }
    requires test { IsLitOf gates.old test }
    requires places { places ≤ length word.now }
    ensures len { IfOk result (λ r. length r.word ≡ length word.now) }
    ensures word { IfOk result (λ r. IsWordOf gates.new r.word) }
    ensures lost { IfOk result (λ r. IsLitOf gates.new r.lost) }
    ensures value { IfOk result (λ r. (A : ℕ → Bool) → Agrees A gates.new → number A r.word ≡ (if is_true A test then number A word.now * 2 ^ places % 2 ^ length word.now else number A word.now)) }
    ensures over { IfOk result (λ r. (A : ℕ → Bool) → Agrees A gates.new → is_true A r.lost ≡ (is_true A lost || (is_true A test && not (nat_lt (number A word.now * 2 ^ places) (2 ^ length word.now))))) }
    ensures grows { Grows gates.old gates.new }
{
    let bits = word.as_slice();
    let kept = bits.len() - places;
    let never = gates.constant(false)?;
    let moved = above(alloc, never, places, &bits[..kept])?;
    let past = any(gates, &bits[kept..])?;
    let falls = gates.and(test, past)?;
    let lost = or(gates, lost, falls)?;
    let word = select(alloc, gates, test.complement(), word, &moved)?;
    Ok(Raised { word, lost })
}

/// Moves a word that one literal continues at its top down, by as many places as a distance says, each bit of which is
/// a number of places within the word.
fn lower(
    alloc: Global,
    gates: &mut Gates,
    bits: &[Lit],
    distance: &[Lit],
    fill: Lit,
) -> Result<Word, NoMemory>
    requires word { IsWordOf gates.old bits.now }
    requires distance { IsWordOf gates.old distance.now }
    requires fill { IsLitOf gates.old fill }
    requires short { (i : ℕ) → i < length distance.now → 2 ^ i < length bits.now }
    requires few { length distance.now ≤ 64 }
    ensures len { IfOk result (λ w. length w ≡ length bits.now) }
    ensures word { IfOk result (λ w. IsWordOf gates.new w) }
    ensures value { IfOk result (λ w. (A : ℕ → Bool) → Agrees A gates.new → continued_value A fill w ≡ right_of (continued_value A fill bits.now) (number A distance.now)) }
    ensures grows { Grows gates.old gates.new }
{
    let mut word = Sequence::from_slice(alloc, bits)?;
    for (i, test) in distance.iter().enumerate() {
        let lowered = lower_where(alloc, gates, &word, fill, *test, 1 << i)?;
        word = lowered;
    }
    Ok(word)
}

/// Moves a word that one literal continues at its top down by some places where a literal is true.
fn lower_where(
    alloc: Global,
    gates: &mut Gates,
    word: &Word,
    fill: Lit,
    test: Lit,
    places: usize,
) -> Result<Word, NoMemory>
    requires word { IsWordOf gates.old word.now }
    requires fill { IsLitOf gates.old fill }
    requires test { IsLitOf gates.old test }
    requires places { places ≤ length word.now }
    ensures len { IfOk result (λ w. length w ≡ length word.now) }
    ensures word { IfOk result (λ w. IsWordOf gates.new w) }
    ensures value { IfOk result (λ w. (A : ℕ → Bool) → Agrees A gates.new → continued_value A fill w ≡ (if is_true A test then right_of (continued_value A fill word.now) places else continued_value A fill word.now)) }
    ensures grows { Grows gates.old gates.new }
{
    let bits = word.as_slice();
    let moved = below(alloc, &bits[places..], fill, places)?;
    let chosen = select(alloc, gates, test.complement(), word, &moved)?;
    Ok(chosen)
}

/// A word below some copies of a literal.
pub(crate) fn below(alloc: Global, word: &[Lit], fill: Lit, copies: usize) -> Result<Word, NoMemory>
    ensures { IfOk result (λ w. w ≡ word.now ++ replicate copies fill) }
{
    let mut whole = Sequence::from_slice(alloc, word)?;
    for _i in 0..copies {
        whole.push(fill)?;
    }
    Ok(whole)
}
