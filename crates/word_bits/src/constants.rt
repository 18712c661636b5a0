ghost use Rattle.std.specs.Prelude.{◌≡◌, ◌<◌, ◌≤◌, ℕ, Bool, length, IfOk};
ghost use Rattle.kv_num.specs.Bits.{bit_of, low_bits};
ghost use Rattle.kv_num.specs.Shape.{wrap_at};
ghost use Rattle.gate_core.specs.Table.{Agrees, Grows};
ghost use Rattle.word_sums.specs.Words.{number, word_value, IsWordOf};

use gate_core::Gates;
use kv_base::{NoMemory, Sequence};
use std::alloc::Global;
use word_sums::Word;

/// The word of a width whose number is the given one, wrapped (6.3.1.3), with or without a sign.
#[tactic(auto, using(crate::proofs::Words::constant_value))]
pub fn constant(
    alloc: Global,
    gates: &mut Gates,
    number: i128,
    width: usize,
) -> Result<Word, NoMemory>
    requires { width ≤ 128 }
    ensures len { IfOk result (λ w. length w ≡ width) }
    ensures word { IfOk result (λ w. IsWordOf gates.new w) }
    ensures value { IfOk result (λ w. (A : ℕ → Bool) (signed : Bool) → Agrees A gates.new → word_value A signed w ≡ wrap_at width signed number) }
    ensures grows { Grows gates.old gates.new }
{
    let word = constant_digits(alloc, gates, number, width)?;
    Ok(word)
}

/// The word of the lowest bits of a number.
fn constant_digits(
    alloc: Global,
    gates: &mut Gates,
    n: i128,
    width: usize,
) -> Result<Word, NoMemory>
    requires { width ≤ 128 }
    ensures len { IfOk result (λ w. length w ≡ width) }
    ensures word { IfOk result (λ w. IsWordOf gates.new w) }
    ensures value { IfOk result (λ w. (A : ℕ → Bool) → Agrees A gates.new → number A w ≡ low_bits width n) }
    ensures grows { Grows gates.old gates.new }
{
    let mut word = Sequence::new(alloc);
    for i in 0..width {
        let digit = gates.constant(is_set(n, i as u32))?;
        word.push(digit)?;
    }
    Ok(word)
}

/// Whether a bit of a number is set.
fn is_set(n: i128, at: u32) -> bool
    requires { at < 128 }
    ensures { result ≡ bit_of n at }
{
    (n >> at).rem_euclid(2) == 1
}
