ghost use Rattle.std.specs.Prelude.{◌≡◌, ◌<◌, ℕ, ℤ, Bool, length, IfOk};
ghost use Rattle.gate_core.specs.Table.{Agrees, Grows};
ghost use Rattle.term_core.specs.Table.{term_at, shape_at, term_value, Agrees as TermsAgree};
ghost use Rattle.word_sums.specs.Words.{word_value, IsWordOf};
ghost use Rattle.term_words.specs.Words.{numbers, AreWordsOf, AreWide, Give};

use crate::Words;
use crate::kinds::word_of_kind;
use gate_core::Gates;
use kv_base::{NoMemory, Sequence};
use std::alloc::Global;
use term_core::{TermId, Terms};
use word_gates::Word;

/// The word of one term, from those of the terms before it.
fn word_of_term(
    alloc: Global,
    gates: &mut Gates,
    terms: &Terms,
    words: &Words,
    vars: &Words,
    id: TermId,
) -> Result<Word, NoMemory>
    requires within { id.0 < length terms.now }
    requires before { length words.now ≡ id.0 }
    requires words { AreWordsOf gates.old words.now }
    requires wide { AreWide terms.now words.now }
    requires vars { AreWordsOf gates.old vars.now }
    ensures len { IfOk result (λ w. length w ≡ (shape_at terms.now id.0).width) }
    ensures word { IfOk result (λ w. IsWordOf gates.new w) }
    ensures value { IfOk result (λ w. (A : ℕ → Bool) (V : ℕ → ℤ) → Agrees A gates.new → Give A terms.now words.now V → word_value A (shape_at terms.now id.0).signed w ≡ term_value (numbers A vars.now) V terms.now (term_at terms.now id.0)) }
    ensures grows { Grows gates.old gates.new }
{
    let term = terms.get(id);
    let word = word_of_kind(alloc, gates, terms, words, vars, term.shape, term.kind)?;
    Ok(word)
}

/// The words of all terms, each as wide as its term, and each with its term's value where each variable has the number of
/// its word without a sign, and 0 where it has none or an empty one.
pub fn words(
    alloc: Global,
    gates: &mut Gates,
    terms: &Terms,
    vars: &Words,
) -> Result<Words, NoMemory>
    requires vars { AreWordsOf gates.old vars.now }
    ensures len { IfOk result (λ ws. length ws ≡ length terms.now) }
    ensures words { IfOk result (λ ws. AreWordsOf gates.new ws) }
    ensures wide { IfOk result (λ ws. AreWide terms.now ws) }
    ensures value { IfOk result (λ ws. (A : ℕ → Bool) (V : ℕ → ℤ) → Agrees A gates.new → TermsAgree (numbers A vars.now) V terms.now → Give A terms.now ws V) }
    ensures grows { Grows gates.old gates.new }
{
    let mut made = Sequence::new(alloc);
    for at in 0..terms.len() {
        let word = word_of_term(alloc, gates, terms, &made, vars, TermId(at))?;
        made.push(word)?;
    }
    Ok(made)
}
