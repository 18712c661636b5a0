ghost use Rattle.std.specs.Prelude.{◌≡◌, ◌<◌, [], ◌∷◌, ℕ, Bool, false, length, IfOk};
ghost use Rattle.sat_clause.specs.Literals.{is_true};
ghost use Rattle.gate_core.specs.declared.gate.Gate.{Gate};
ghost use Rattle.gate_core.specs.Table.{Agrees, IsLitOf, Grows};
ghost use Rattle.term_core.specs.Term.{truth};
ghost use Rattle.word_sums.specs.Words.{word_value, IsWordOf};

use kv_base::{NoMemory, Sequence};
use sat_clause::Lit;
use std::alloc::Global;
use word_gates::Word;

/// A literal as a word of one bit.
#[tactic(auto, using(crate::proofs::OneBit::value_of_literal))]
pub(crate) fn truth_word(alloc: Global, lit: Lit) -> Result<Word, NoMemory>
    ensures word { IfOk result (λ w. w ≡ lit ∷ []) }
    ensures value { IfOk result (λ w. (A : ℕ → Bool) → word_value A false w ≡ truth (is_true A lit)) }
{
    let mut word = Sequence::new(alloc);
    word.push(lit)?;
    Ok(word)
}

/// The literal of a word of one bit.
#[tactic(auto, using(crate::proofs::OneBit::value_of_head))]
pub(crate) fn literal(word: &Word) -> Lit
    requires { length word.now ≡ 1 }
    ensures value { (A : ℕ → Bool) → word_value A false word.now ≡ truth (is_true A result) }
    ensures word { word.now ≡ result ∷ [] }
{
    word.as_slice()[0]
}
