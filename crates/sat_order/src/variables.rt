ghost use Rattle.std.specs.Prelude.{ℕ, ◌≡◌, ◌↔◌, ◌<◌, ◌≤◌, [], length, max, slice_set, MatchOption, IfOk, OnOk, OnErr, true, false};
ghost use Rattle.sat_order.specs.Members.{IsIn, IsEmpty, AreNumbers};

use crate::heap::Heap;
use kv_base::NoMemory;
use std::alloc::Global;
use std::marker::Model;

/// A set of variables. Contracts see it as a list that says of each variable below the reserved number whether it is in
/// the set.
#[derive(Drop)]
pub struct Order {
    alloc: Global,
    heap: Heap,
    // how many of the heap's variables are in the set: the first ones
    count: usize,
    activity: Vec<f64>,
    step: f64,
}

impl Model for Order {
    ghost use Rattle.std.specs.Prelude.{◌≤◌, List, Bool, length};
    ghost use Rattle.sat_order.specs.Members.{members};

    ghost Value = { List Bool };

    ghost view = { λ o. members o.heap.vars.items o.heap.places.items o.count };

    ghost invariant = { λ o. o.count ≤ length o.heap.vars.items };
}

/// Gives further variables no activity.
fn fill(activity: &mut Vec<f64>, vars: usize) -> Result<(), NoMemory> {
    while activity.len() < vars {
        activity.push(0.0)?;
    }
    Ok(())
}

/// The numbers from one on, below another.
fn numbers(alloc: Global, from: usize, to: usize) -> Result<Vec<usize>, NoMemory>
    requires { from ≤ to }
    ensures { IfOk result (λ made. AreNumbers from to made.items) }
{
    let mut made = Vec::with_capacity(alloc, to - from)?;
    for number in from..to {
        made.push(number)?;
    }
    Ok(made)
}

impl Order {
    /// No variable. It takes no memory.
    pub fn new(alloc: Global) -> Order
        ensures { result ≡ [] }
    {
        Order {
            alloc,
            heap: Heap {
                vars: Vec::new(alloc),
                places: Vec::new(alloc),
            },
            count: 0,
            activity: Vec::new(alloc),
            step: 1.0,
        }
    }

    /// The greatest number of variables that was reserved.
    pub fn reserved(&self) -> u64
        ensures { result ≡ length self.now }
    {
        self.heap.vars.len() as u64
    }

    /// Makes room for the variables below a number. They are not in the set where they weren't. Without memory the set
    /// stays as it was.
    pub fn reserve(&mut self, vars: u64) -> Result<(), NoMemory>
        ensures size { OnOk result (length self.new ≡ max (length self.old) vars) }
        ensures same { OnOk result ((v : ℕ) → IsIn self.new v ↔ IsIn self.old v) }
        ensures err { OnErr result (self.new ≡ self.old) }
    {
        let old = self.heap.vars.len();
        let vars = vars as usize;
        if vars <= old {
            return Ok(());
        }
        fill(&mut self.activity, vars)?;
        self.heap.lengthen(vars)?;
        let more = numbers(self.alloc, old, vars)?;
        self.heap.vars.extend_from_slice(more.as_slice())?;
        Ok(())
    }

    /// Takes a variable out of the set: none exactly where the set is empty. It takes no memory.
    pub fn take(&mut self) -> Option<u64>
        ensures { MatchOption result (IsEmpty self.old × (self.new ≡ self.old)) (λ v. IsIn self.old v × (self.new ≡ slice_set self.old v false)) }
    {
        if self.count == 0 {
            return None;
        }
        let var = self.heap.vars[0];
        self.heap.exchange(0, self.count - 1);
        self.count -= 1;
        self.heap.sink(&self.activity, self.count);
        Some(var as u64)
    }

    /// Puts a variable into the set, one below the reserved number. It takes no memory.
    pub fn put(&mut self, var: u64)
        requires { var < length self.old }
        ensures { self.new ≡ slice_set self.old var true }
    {
        let place = self.heap.places[var as usize];
        if place < self.count {
            return;
        }
        let last = self.count;
        self.heap.exchange(place, last);
        self.count += 1;
        self.heap.rise(&self.activity, self.count, last);
    }

    /// Lessens all activities alike, and what the next ones are raised by.
    fn rescale(&mut self)
        ensures { self.new ≡ self.old }
    {
        for activity in self.activity.iter_mut() {
            *activity *= 1e-100;
        }
        self.step *= 1e-100;
    }

    /// Raises the activity of a variable below the reserved number, so that it is taken earlier.
    pub fn bump(&mut self, var: u64)
        requires { var < length self.old }
        ensures { self.new ≡ self.old }
    {
        if let Some(activity) = self.activity.get_mut(var as usize) {
            *activity += self.step;
            if *activity > 1e100 {
                self.rescale();
            }
        }
        let place = self.heap.places[var as usize];
        if place < self.count {
            self.heap.rise(&self.activity, self.count, place);
        }
    }

    /// Lets what was raised so far count for less: 99 parts of 100.
    pub fn decay(&mut self)
        ensures { self.new ≡ self.old }
    {
        self.step /= 0.99;
    }
}
