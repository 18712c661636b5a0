//! The machine and its steps.

ghost use Rattle.std.specs.Prelude.{◌≡◌, IfOk};
ghost use Rattle.c_straight_model.specs.Machine as spec;
ghost use Rattle.c_replay.specs.RunEnd.{Steps};
ghost use Rattle.c_replay.specs.View.{item_of};

use crate::control::{ControlItem, Waiting, handed};
use crate::run::RunEnd;
use crate::values::{Object, holds, operand_value, place_of, result_of};
use c_straight_model::{Addend, BlockItem, CheckKind, Program, Sum};
use kv_base::{Bytes, NoMemory, Sequence, Stack};
use std::alloc::Global;
use std::marker::Model;

/// A configuration of the machine.
#[derive(Drop)]
pub struct Machine<'p> {
    alloc: Global,
    control: Stack<ControlItem<'p>>,
    store: Sequence<Object<'p>>,
    inputs: &'p [u64],
}

impl<'p> Model for Machine<'p> {
    ghost use Rattle.c_straight_model.specs.Machine.{Configuration};

    ghost Value = { Configuration };

    ghost use Rattle.c_straight_model.specs.contracts.BlockItem as b;
    ghost use Rattle.c_straight_model.specs.contracts.Sum as s;
    ghost use Rattle.c_straight_model.specs.contracts.Addend as a;
    ghost use Rattle.std.specs.Coded.{codes};

    ghost coded = { Prim.hlevel (codes, a.the_row.coded, s.the_row.coded, b.the_row.coded) };

    ghost view = { λ m. record { control = m.control; store = m.store; inputs = m.inputs.now } };
}

impl<'p> Machine<'p> {
    /// The configuration in which a run begins.
    pub fn start(
        alloc: Global,
        program: &'p Program,
        inputs: &'p [u64],
    ) -> Result<Machine<'p>, NoMemory>
        ensures { IfOk result (λ machine. machine ≡ spec.start program.now inputs.now) }
    {
        let mut control = Stack::new(alloc);
        control.push(ControlItem {
            waiting: Waiting::Rest(program.items.as_slice()),
        })?;
        Ok(Machine {
            alloc,
            control,
            store: Sequence::new(alloc),
            inputs,
        })
    }

    /// One item is taken from the control stack: how the run ends, or none where it goes on.
    pub fn step(&mut self) -> Result<Option<RunEnd>, NoMemory>
        ensures { Steps (spec.step self.old) result self.new }
    {
        match self.control.pop() {
            None => Ok(Some(RunEnd::Ended)),
            Some(ControlItem { waiting }) => self.item_step(waiting),
        }
    }

    /// Puts something to do on the stack.
    fn put(&mut self, waiting: Waiting<'p>) -> Result<Option<RunEnd>, NoMemory>
        ensures { Steps (spec.Answer.Next (spec.put (item_of waiting.entry) self.old)) result self.new }
    {
        self.control.push(ControlItem { waiting })?;
        Ok(None)
    }

    // Hands a value to the item that waits for it.
    /// Hands a value to what waits for it.
    fn gives(&mut self, v: i32) -> Result<Option<RunEnd>, NoMemory>
        ensures { Steps (spec.gives v self.old) result self.new }
    {
        match self.control.pop() {
            None => Ok(None),
            Some(ControlItem { waiting }) => {
                let waiting = handed(waiting, v)?;
                self.put(waiting)
            }
        }
    }

    // The value of a sum is needed next.
    /// The value of a sum is next, for what waits below.
    fn asks(&mut self, sum: &'p Sum, below: Waiting<'p>) -> Result<Option<RunEnd>, NoMemory>
        ensures { Steps (spec.asks sum.now (item_of below.entry) self.old) result self.new }
    {
        self.put(below)?;
        self.put(Waiting::Value(sum))
    }

    // A new object lives.
    /// A new object of this name and value is the innermost.
    fn declares(&mut self, name: &'p Bytes, v: i32) -> Result<Option<RunEnd>, NoMemory>
        ensures { Steps (spec.Answer.Next (spec.declares name.now v self.old)) result self.new }
    {
        self.store.push(Object { name, value: v })?;
        Ok(None)
    }

    // The object of this name holds another value.
    /// The object of this name has this value from now on.
    fn assigns(&mut self, name: &'p Bytes, v: i32)
        ensures { self.new ≡ spec.assigns name.now v self.old }
    {
        if let Some(place) = place_of(name.as_slice(), self.store.as_slice()) {
            self.store.set(place, Object { name, value: v });
        }
    }

    /// One step of an item of the body.
    fn work_step(
        &mut self,
        item: &'p BlockItem,
        found: Sequence<i32>,
    ) -> Result<Option<RunEnd>, NoMemory>
        ensures { Steps (spec.work_step item.now found self.old) result self.new }
    {
        match item {
            BlockItem::Declare { name, value, .. } => match found.as_slice() {
                [] => self.asks(value, Waiting::Tests(item, found)),
                [v, ..] => self.declares(name, *v),
            },
            BlockItem::Assign { name, value, .. } => match found.as_slice() {
                [] => self.asks(value, Waiting::Tests(item, found)),
                [v, ..] => {
                    self.assigns(name, *v);
                    Ok(None)
                }
            },
            BlockItem::Assert {
                relation,
                left,
                right,
                line,
            } => match found.as_slice() {
                [] => self.asks(left, Waiting::Tests(item, found)),
                [_] => self.asks(right, Waiting::Tests(item, found)),
                [v, w, ..] => {
                    if holds(*relation, *v, *w) {
                        Ok(None)
                    } else {
                        let (check, line) = (CheckKind::Assertion, *line);
                        Ok(Some(RunEnd::Broken { check, line }))
                    }
                }
            },
        }
    }

    // The items of a body that are left.
    /// One step where the items that are left are next.
    fn rest_step(&mut self, left: &'p [BlockItem]) -> Result<Option<RunEnd>, NoMemory>
        ensures { Steps (spec.item_step (spec.Item.Rest left.now) self.old) result self.new }
    {
        match left {
            [] => Ok(None),
            [item, left @ ..] => {
                self.put(Waiting::Rest(left))?;
                let found = Sequence::new(self.alloc);
                self.put(Waiting::Work(item, found))
            }
        }
    }

    // The addends that are left of a sum.
    /// One step where a sum has this value so far.
    fn adds_step(&mut self, value: i32, left: &'p [Addend]) -> Result<Option<RunEnd>, NoMemory>
        ensures { Steps (spec.item_step (spec.Item.Adds value left.now) self.old) result self.new }
    {
        match left {
            [] => self.gives(value),
            [addend, left @ ..] => {
                let operand = operand_value(&addend.operand, self.store.as_slice());
                self.put(Waiting::Adds(result_of(addend.sign, value, operand), left))
            }
        }
    }

    // An item that was taken; one that waits never stands on top.
    /// One step of what lies on top.
    fn item_step(&mut self, waiting: Waiting<'p>) -> Result<Option<RunEnd>, NoMemory>
        ensures { Steps (spec.item_step (item_of waiting.entry) self.old) result self.new }
    {
        match waiting {
            Waiting::Rest(left) => self.rest_step(left),
            Waiting::Work(item, found) => self.work_step(item, found),
            Waiting::Tests(_, _) => Ok(Some(RunEnd::Ended)),
            Waiting::Value(sum) => {
                let first = operand_value(&sum.first, self.store.as_slice());
                self.put(Waiting::Adds(first, sum.rest.as_slice()))
            }
            Waiting::Adds(value, left) => self.adds_step(value, left),
        }
    }
}
