ghost use Rattle.std.specs.Prelude.{◌↔◌, ◌<◌, IsTrue};
ghost use Rattle.std.specs.List.{All};
ghost use Rattle.sat_clause.specs.Literals.{variable_of, AreBelow};

use crate::bound::BoundLits;
use crate::template::Sites;
use sat_clause::are_below;

/// Whether the variable of each candidate's literal is below `n`, as a template's type asks it.
pub fn bounds_are_below(bounds: &BoundLits, n: u64) -> bool
    ensures { IsTrue result ↔ All (λ b. variable_of b.lit < n) bounds.now }
{
    for bound in bounds.as_slice() {
        if bound.lit.variable() >= n {
            return false;
        }
    }
    true
}

/// Whether the variable of each literal of the sites is below `n`, as a template's type asks it.
pub fn sites_are_below(sites: &Sites, n: u64) -> bool
    ensures { IsTrue result ↔ (All (λ s. variable_of s.taken < n) sites.now × All (λ s. AreBelow n s.bits) sites.now) }
{
    for site in sites.as_slice() {
        if site.taken.variable() >= n || !are_below(&site.bits, n) {
            return false;
        }
    }
    true
}
