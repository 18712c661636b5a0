ghost use Rattle.std.specs.Prelude.{◌≡◌, ◌<◌, ◌≤◌, ℕ, Bool, pos, ◌-ℤ◌, length, take, IfOk};
ghost use Rattle.kv_num.specs.Shape.{wrap_at};
ghost use Rattle.gate_core.specs.Table.{Agrees, Grows};
ghost use Rattle.word_sums.specs.Words.{word_value, IsWordOf};

use crate::shifts::below;
use crate::signs::{negated_where, sign};
use gate_core::Gates;
use kv_base::{NoMemory, Sequence};
use std::alloc::Global;
use word_sums::Word;

/// A word's number as a number of another width, wrapped (6.3.1.3). Its own number is read with or without a sign; the
/// result is right for both.
pub fn resize(
    alloc: Global,
    gates: &mut Gates,
    a: &Word,
    signed: bool,
    width: usize,
) -> Result<Word, NoMemory>
    requires word { IsWordOf gates.old a.now }
    requires some { 0 < length a.now }
    ensures len { IfOk result (λ w. length w ≡ width) }
    ensures word { IfOk result (λ w. IsWordOf gates.new w) }
    ensures value { IfOk result (λ w. (A : ℕ → Bool) (wide : Bool) → Agrees A gates.new → word_value A wide w ≡ wrap_at width wide (word_value A signed a.now)) }
    ensures grows { Grows gates.old gates.new }
{
    if width <= a.len() {
        let word = cut(alloc, a, width)?;
        return Ok(word);
    }
    let word = stretched(alloc, gates, a, signed, width)?;
    Ok(word)
}

/// The lowest digits of a word.
fn cut(alloc: Global, a: &Word, width: usize) -> Result<Word, NoMemory>
    requires { width ≤ length a.now }
    ensures { IfOk result (λ w. w ≡ take width a.now) }
{
    let word = Sequence::from_slice(alloc, &a.as_slice()[..width])?;
    Ok(word)
}

/// A word that its sign continues to a width.
fn stretched(
    alloc: Global,
    gates: &mut Gates,
    a: &Word,
    signed: bool,
    width: usize,
) -> Result<Word, NoMemory>
    requires word { IsWordOf gates.old a.now }
    requires some { 0 < length a.now }
    requires long { length a.now ≤ width }
    ensures len { IfOk result (λ w. length w ≡ width) }
    ensures word { IfOk result (λ w. IsWordOf gates.new w) }
    ensures value { IfOk result (λ w. (A : ℕ → Bool) (wide : Bool) → Agrees A gates.new → word_value A wide w ≡ wrap_at width wide (word_value A signed a.now)) }
    ensures grows { Grows gates.old gates.new }
{
    let bits = a.as_slice();
    let fill = sign(gates, bits, signed)?;
    let word = below(alloc, bits, fill, width - bits.len())?;
    Ok(word)
}

/// A word's number taken from 0, wrapped (6.5.3.3).
pub fn negate(alloc: Global, gates: &mut Gates, a: &Word) -> Result<Word, NoMemory>
    requires word { IsWordOf gates.old a.now }
    requires some { 0 < length a.now }
    ensures len { IfOk result (λ w. length w ≡ length a.now) }
    ensures word { IfOk result (λ w. IsWordOf gates.new w) }
    ensures value { IfOk result (λ w. (A : ℕ → Bool) (signed : Bool) → Agrees A gates.new → word_value A signed w ≡ wrap_at (length a.now) signed (pos 0 -ℤ word_value A signed a.now)) }
    ensures grows { Grows gates.old gates.new }
{
    let always = gates.constant(true)?;
    let word = negated_where(alloc, gates, a.as_slice(), always)?;
    Ok(word)
}
