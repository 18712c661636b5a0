ghost use Rattle.std.specs.Prelude.{◌≡◌, ℕ, Bool, pos, length, IfOk};
ghost use Rattle.gate_core.specs.Table.{Agrees, Grows};
ghost use Rattle.term_core.specs.Shape.{IsShape, HasShape, wrap_to};
ghost use Rattle.word_sums.specs.Words.{number, word_value, IsWordOf};
ghost use Rattle.term_words.specs.Words.{numbers, AreWordsOf};

use crate::Words;
use gate_core::Gates;
use kv_base::NoMemory;
use std::alloc::Global;
use term_core::Shape;
use word_gates::{Word, resize};

/// The word of a number of a shape.
pub(crate) fn constant(
    alloc: Global,
    gates: &mut Gates,
    shape: Shape,
    value: i128,
) -> Result<Word, NoMemory>
    requires shape { IsShape shape }
    requires value { HasShape shape value }
    ensures len { IfOk result (λ w. length w ≡ shape.width) }
    ensures word { IfOk result (λ w. IsWordOf gates.new w) }
    ensures value { IfOk result (λ w. (A : ℕ → Bool) → Agrees A gates.new → word_value A shape.signed w ≡ value) }
    ensures grows { Grows gates.old gates.new }
{
    let word = word_gates::constant(alloc, gates, value, shape.width as usize)?;
    Ok(word)
}

/// The word of a variable in a shape. One that has no word, or an empty one, is 0.
pub(crate) fn variable(
    alloc: Global,
    gates: &mut Gates,
    vars: &Words,
    shape: Shape,
    variable: u64,
) -> Result<Word, NoMemory>
    requires vars { AreWordsOf gates.old vars.now }
    requires shape { IsShape shape }
    ensures len { IfOk result (λ w. length w ≡ shape.width) }
    ensures word { IfOk result (λ w. IsWordOf gates.new w) }
    ensures value { IfOk result (λ w. (A : ℕ → Bool) → Agrees A gates.new → word_value A shape.signed w ≡ wrap_to shape (numbers A vars.now variable)) }
    ensures grows { Grows gates.old gates.new }
{
    match vars.get(variable as usize) {
        Some(own) => {
            let word = in_shape(alloc, gates, own, shape)?;
            Ok(word)
        }
        None => {
            let word = word_gates::constant(alloc, gates, 0, shape.width as usize)?;
            Ok(word)
        }
    }
}

/// The word in a shape of another word's number without a sign, which is 0 where that word is empty.
fn in_shape(alloc: Global, gates: &mut Gates, own: &Word, shape: Shape) -> Result<Word, NoMemory>
    requires word { IsWordOf gates.old own.now }
    requires shape { IsShape shape }
    ensures len { IfOk result (λ w. length w ≡ shape.width) }
    ensures word { IfOk result (λ w. IsWordOf gates.new w) }
    ensures value { IfOk result (λ w. (A : ℕ → Bool) → Agrees A gates.new → word_value A shape.signed w ≡ wrap_to shape (pos (number A own.now))) }
    ensures grows { Grows gates.old gates.new }
{
    let width = shape.width as usize;
    if own.is_empty() {
        let word = word_gates::constant(alloc, gates, 0, width)?;
        return Ok(word);
    }
    let word = resize(alloc, gates, own, false, width)?;
    Ok(word)
}
