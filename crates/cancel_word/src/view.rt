// What a seat knows, the rule of the word, and the steps that keep it.
use atomic_table::{Join, Play, Split, TableRule};
use std::collections::LinkedList;
use std::marker::{Brand, PhantomData};

/// What a seat knows: the numbers that it holds, whether it or a seat that was joined into it has seen the word set, whether
/// one of them has decided, and its own loads. Proofs alone have values of it.
pub struct View {
    pub numbers: LinkedList<u64>,
    pub seen: bool,
    pub decided: bool,
    pub loads: u64,
}

/// The rule of the word and of all views, which holds between any two steps.
pub struct Law;

impl TableRule<(), View, u64> for Law {
    ghost use Rattle.cancel_word.specs.Word.{Holds, first_view};

    ghost holds = { Holds };

    ghost first = { first_view };
}

/// One load of the word.
pub struct Look;

impl Play<(), View> for Look {
    ghost use Rattle.cancel_word.specs.Word.{Loads};

    ghost then = { Loads };
}

/// One compare and exchange, which sets the word where it is 0.
pub struct Decide;

impl Play<(), View> for Decide {
    ghost use Rattle.cancel_word.specs.Word.{Stops};

    ghost then = { Stops };
}

/// The number that a call of `split` moves.
pub trait Number {
    ghost use Rattle.std.specs.Prelude.{ℕ};

    ghost number: { ℕ };
}

impl Number for Brand {
    ghost number = { 0 };
}

/// Moves a number from a seat to a new one.
pub struct Gives<N: Number> {
    of: PhantomData<N>,
}

impl<N: Number> Split<View> for Gives<N> {
    ghost use Rattle.cancel_word.specs.Word.{kept_back, given};

    ghost left = { λ v. kept_back N.number v };

    ghost right = { λ v. given N.number v };
}

/// Puts what two seats know together.
pub struct Unites;

impl Join<View> for Unites {
    ghost use Rattle.cancel_word.specs.Word.{united, spent_view};

    ghost both = { united };

    ghost spent = { spent_view };
}
