ghost use Rattle.std.specs.Prelude.{◌≡◌, ◌+◌, ◌*◌, ◌<◌, ◌≤◌, length, slice_index, slice_set, take, OnOk};
ghost use Rattle.sat_order.specs.Members.{IsArranged};

use kv_base::NoMemory;

/// All variables in some order, of which the first ones are a heap by activity.
#[derive(Drop)]
pub struct Heap {
    pub vars: Vec<usize>,
    // where each variable stands there
    pub places: Vec<usize>,
    ghost ok: { IsArranged vars.items places.items },
}

/// How active a variable is.
fn activity_of(activity: &[f64], var: usize) -> f64 {
    match activity.get(var) {
        Some(activity) => *activity,
        None => 0.0,
    }
}

impl Heap {
    ghost use Rattle.sat_order.specs.Members.{members};

    /// Puts the variables at two places in each other's place.
    pub fn exchange(&mut self, i: usize, j: usize)
        requires i { i < length self.old.vars.items }
        requires j { j < length self.old.vars.items }
        ensures places { self.new.places.items ≡ slice_set (slice_set self.old.places.items (slice_index self.old.vars.items i) j) (slice_index self.old.vars.items j) i }
        ensures size { length self.new.vars.items ≡ length self.old.vars.items }
    {
        let one = self.vars[i];
        let two = self.vars[j];
        self.vars[i] = two;
        self.vars[j] = one;
        self.places[one] = j;
        self.places[two] = i;
    }

    /// Whether the variable at one place is more active than that at another.
    fn is_above(&self, activity: &[f64], one: usize, two: usize) -> bool
        requires one { one < length self.now.vars.items }
        requires two { two < length self.now.vars.items }
    {
        activity_of(activity, self.vars[one]) > activity_of(activity, self.vars[two])
    }

    /// Moves the variable at a place up, past those that are less active.
    pub fn rise(&mut self, activity: &[f64], count: usize, from: usize)
        requires count { count ≤ length self.old.vars.items }
        requires from { from < count }
        ensures size { length self.new.vars.items ≡ length self.old.vars.items }
        ensures same { members self.new.vars.items self.new.places.items count ≡ members self.old.vars.items self.old.places.items count }
    {
        let mut at = from;
        while at > 0 {
            let above = (at - 1) / 2;
            if !self.is_above(activity, at, above) {
                break;
            }
            self.exchange(at, above);
            at = above;
        }
    }

    /// The more active of the two places below.
    fn better_below(&self, activity: &[f64], count: usize, at: usize) -> usize
        requires count { count ≤ length self.now.vars.items }
        requires below { 2 * at + 1 < count }
        ensures low { at < result }
        ensures high { result < count }
    {
        let left = 2 * at + 1;
        let right = left + 1;
        if right < count && self.is_above(activity, right, left) {
            return right;
        }
        left
    }

    /// Moves the first variable down, past those that are more active.
    pub fn sink(&mut self, activity: &[f64], count: usize)
        requires count { count ≤ length self.old.vars.items }
        ensures size { length self.new.vars.items ≡ length self.old.vars.items }
        ensures same { members self.new.vars.items self.new.places.items count ≡ members self.old.vars.items self.old.places.items count }
    {
        let mut at = 0;
        while at < count / 2 {
            let below = self.better_below(activity, count, at);
            if !self.is_above(activity, below, at) {
                break;
            }
            self.exchange(at, below);
            at = below;
        }
    }

    /// Lengthens the places to a given number, each new one of the variable of its number.
    pub fn lengthen(&mut self, vars: usize) -> Result<(), NoMemory>
        ensures vars { self.new.vars.items ≡ self.old.vars.items }
        ensures front { take (length self.old.places.items) self.new.places.items ≡ self.old.places.items }
        ensures enough { OnOk result (vars ≤ length self.new.places.items) }
    {
        while self.places.len() < vars {
            let var = self.places.len();
            self.places.push(var)?;
        }
        Ok(())
    }
}
