//! The items of the control stack.

ghost use Rattle.std.specs.Prelude.{◌≡◌, IfOk};
ghost use Rattle.c_straight_model.specs.Machine as spec;
ghost use Rattle.c_replay.specs.View.{item_of};

use c_straight_model::{Addend, BlockItem, Sum};
use kv_base::{NoMemory, Sequence};
use std::marker::Model;

/// What is still to be done, with the values that wait in it.
#[derive(Drop)]
pub enum Waiting<'p> {
    /// The items of a body that are left.
    Rest(&'p [BlockItem]),
    /// An item that is next, with the values of its sums that were found so far.
    Work(&'p BlockItem, Sequence<i32>),
    /// An item that waits for the value of its next sum.
    Tests(&'p BlockItem, Sequence<i32>),
    /// A sum that is next.
    Value(&'p Sum),
    /// A sum's value up to here, with the addends that are left.
    Adds(i32, &'p [Addend]),
}

/// An item of the control stack.
#[derive(Drop)]
pub struct ControlItem<'p> {
    pub waiting: Waiting<'p>,
}

impl<'p> Model for ControlItem<'p> {
    ghost use Rattle.c_straight_model.specs.Machine.{Item};

    ghost Value = { Item };

    ghost use Rattle.c_straight_model.specs.contracts.BlockItem as b;
    ghost use Rattle.c_straight_model.specs.contracts.Sum as s;
    ghost use Rattle.c_straight_model.specs.contracts.Addend as a;
    ghost use Rattle.std.specs.Coded.{codes};

    ghost coded = { Prim.hlevel (codes, a.the_row.coded, s.the_row.coded, b.the_row.coded) };

    ghost use Rattle.c_replay.specs.View.{item_of};

    ghost view = { λ entry. item_of entry.waiting };
}

/// The item with the value that it waited for.
pub fn handed(waiting: Waiting<'_>, v: i32) -> Result<Waiting<'_>, NoMemory>
    ensures { IfOk result (λ made. item_of made ≡ spec.handed v (item_of waiting.entry)) }
{
    match waiting {
        Waiting::Tests(item, found) => {
            let mut found = found;
            found.push(v)?;
            Ok(Waiting::Work(item, found))
        }
        Waiting::Rest(left) => Ok(Waiting::Rest(left)),
        Waiting::Work(item, found) => Ok(Waiting::Work(item, found)),
        Waiting::Value(sum) => Ok(Waiting::Value(sum)),
        Waiting::Adds(value, left) => Ok(Waiting::Adds(value, left)),
    }
}
