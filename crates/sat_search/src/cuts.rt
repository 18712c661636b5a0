ghost use Rattle.std.specs.Prelude.{◌≡◌, ◌≤◌, length, take};

use crate::guide::Guide;
use sat_engine::Trail;

/// Unsets all but the first `n`, and tells the guide.
pub fn rewind(trail: &mut Trail, guide: &mut Guide, n: usize)
    requires { n ≤ length trail.old.steps.items }
    ensures steps { trail.new.steps.items ≡ take n trail.old.steps.items }
    ensures size { length trail.new.truth.items ≡ length trail.old.truth.items }
    ensures place { trail.new.place.items ≡ trail.old.place.items }
{
    guide.cut(n);
    while trail.steps.len() > n {
        if let Some(step) = trail.steps.pop() {
            trail.truth[step.lit as usize] = false;
            guide.unset(step.lit);
        }
    }
}
