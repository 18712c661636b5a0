ghost use Rattle.std.specs.Prelude.{◌≡◌, IfOk};
ghost use Rattle.sat_clause.specs.Literals.{complement_of};

use kv_base::NoMemory;
use sat_clause::Lit;
use std::alloc::Global;

/// The literal that is true where this one is false. Inside the engine a literal is a `u32`: twice its variable, and 1
/// more for the complement.
pub fn complement(lit: u32) -> u32
    ensures { result ≡ complement_of lit }
{
    2 * (lit / 2) + (1 - lit % 2)
}

/// The literals by their numbers. Where one is 2^32 or more, its table would be too large: out of memory.
pub fn narrow(alloc: Global, lits: &[Lit]) -> Result<Vec<u32>, NoMemory>
    ensures { IfOk result (λ made. made.items ≡ lits.now) }
{
    let mut made = Vec::with_capacity(alloc, lits.len())?;
    for lit in lits {
        match u32::try_from(lit.number()) {
            Ok(number) => made.push(number)?,
            Err(_) => return Err(NoMemory),
        }
    }
    Ok(made)
}
