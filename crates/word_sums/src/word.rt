use kv_base::Sequence;
use sat_clause::Lit;

/// Literals, lowest bit first.
pub type Word = Sequence<Lit>;

/// The result of an operation: its value, wrapped into the operands' width, and a literal that is true exactly where
/// the exact result fits; of a shift to the left, where also the shifted number isn't negative.
#[derive(Debug, Drop)]
pub struct WordNum {
    pub value: Word,
    pub fits: Lit,
}
