ghost use Rattle.std.specs.Prelude.{◌≡◌, length};
ghost use Rattle.sat_clause.specs.Literals.{AreBelow, clause_holds, is_true, truths};

use crate::literal::{Clause, Lit};
use kv_base::Sequence;

/// The truth of each variable.
pub type Assignment = Sequence<bool>;

/// Whether the clause is true: one of its literals is. Its variables are below the assignment's length.
pub fn holds(c: &Clause, a: &Assignment) -> bool
    requires { AreBelow (length a.now) c.now }
    ensures { result ≡ clause_holds (truths a.now) c.now }
{
    for lit in c.as_slice() {
        if is_true(*lit, a) {
            return true;
        }
    }
    false
}

/// Whether the literal is true. A variable past the assignment's end is false.
pub fn is_true(lit: Lit, a: &Assignment) -> bool
    ensures { result ≡ is_true (truths a.now) lit }
{
    let value = truth_of(lit.variable(), a);
    if lit.is_complement() { !value } else { value }
}

/// The truth of a variable, which is false past the assignment's end.
fn truth_of(variable: u64, a: &Assignment) -> bool
    ensures { result ≡ truths a.now variable }
{
    let truths = a.as_slice();
    let at = variable as usize;
    at < truths.len() && truths[at]
}
