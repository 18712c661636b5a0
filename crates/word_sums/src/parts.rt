ghost use Rattle.std.specs.Prelude.{◌≡◌, ◌==◌, ◌++◌, not, ℕ, Bool, replicate, IfOk};
ghost use Rattle.sat_clause.specs.Literals.{is_true};
ghost use Rattle.gate_core.specs.Table.{Agrees, IsLitOf, Grows};
ghost use Rattle.word_sums.specs.Words.{number, IsWordOf};

use crate::Word;
use crate::bits::or;
use gate_core::Gates;
use kv_base::{NoMemory, Sequence};
use sat_clause::Lit;
use std::alloc::Global;

/// Whether a literal of the word is true. The gates of a word's upper part are those of the whole.
pub fn any(gates: &mut Gates, word: &[Lit]) -> Result<Lit, NoMemory>
    requires { IsWordOf gates.old word.now }
    ensures within { IfOk result (IsLitOf gates.new) }
    ensures value { IfOk result (λ l. (A : ℕ → Bool) → Agrees A gates.new → is_true A l ≡ not (number A word.now == 0)) }
    ensures grows { Grows gates.old gates.new }
{
    let mut set = gates.constant(false)?;
    for i in 0..word.len() {
        let more = or(gates, set, word[word.len() - 1 - i])?;
        set = more;
    }
    Ok(set)
}

/// A word above some copies of a literal.
pub fn above(alloc: Global, fill: Lit, copies: usize, word: &[Lit]) -> Result<Word, NoMemory>
    ensures { IfOk result (λ w. w ≡ replicate copies fill ++ word.now) }
{
    let mut whole = Sequence::new(alloc);
    for _i in 0..copies {
        whole.push(fill)?;
    }
    whole.extend_from_slice(word)?;
    Ok(whole)
}
