use kv_base::NoMemory;
use sat_order::Order;
use std::alloc::Global;

/// Which literal to choose next: by how often its variable stood in conflicts lately, and by the value that it had
/// last. No proof rests on it.
#[derive(Drop)]
pub struct Deciding {
    order: Order,
    /// of each variable, whether it was true when it was last set
    phases: Vec<bool>,
}

impl Deciding {
    /// No variable. It takes no memory.
    pub fn new(alloc: Global) -> Deciding {
        Deciding {
            order: Order::new(alloc),
            phases: Vec::new(alloc),
        }
    }

    /// Takes up a further variable.
    pub fn widen(&mut self) -> Result<(), NoMemory> {
        let var = self.phases.len() as u64;
        self.order.reserve(var.saturating_add(1))?;
        self.phases.push(false)?;
        self.put(var);
        Ok(())
    }

    /// Puts a variable back into the order.
    fn put(&mut self, var: u64) {
        if var < self.order.reserved() {
            self.order.put(var);
        }
    }

    /// The variable's literal of the value that it had last.
    fn literal(&self, var: u64) -> Option<u32> {
        let was_true = self.phases.get(var as usize).copied().unwrap_or(false);
        let lit = var.saturating_mul(2);
        u32::try_from(if was_true { lit } else { lit.saturating_add(1) }).ok()
    }

    /// A literal that is neither true nor false.
    pub fn choose(&mut self, truth: &[bool]) -> Option<u32> {
        for _turn in 0..self.order.reserved() {
            let var = self.order.take()?;
            let at = (var as usize).saturating_mul(2);
            let is_true = truth.get(at).copied().unwrap_or(true);
            let is_false = truth.get(at.saturating_add(1)).copied().unwrap_or(true);
            if !is_true && !is_false {
                return self.literal(var);
            }
        }
        None
    }

    /// Takes note that a literal is no longer true.
    pub fn unset(&mut self, lit: u32) {
        let var = lit / 2;
        if let Some(phase) = self.phases.get_mut(var as usize) {
            *phase = lit % 2 == 0;
        }
        self.put(u64::from(var));
    }

    /// Takes note that a literal had a part in a conflict.
    pub fn bump(&mut self, lit: u32) {
        let var = u64::from(lit / 2);
        if var < self.order.reserved() {
            self.order.bump(var);
        }
    }

    /// Has conflicts so far count for less.
    pub fn decay(&mut self) {
        self.order.decay();
    }
}
