//! Pointers that are moved, and elements of arrays (C11 6.5.2.1, 6.5.6).

ghost use Rattle.std.specs.Prelude.{◌≡◌, ◌<◌, ◌+◌, ◌*◌, ◌^◌, ℤ, pos, ◌+ℤ◌, ◌*ℤ◌, length, Some, IfOk, IsOk};
ghost use Rattle.c_model.specs.declared.values.Object.{Object};
ghost use Rattle.c_model.specs.declared.values.Outcome.TheVariants.{Unmet};
ghost use Rattle.c_rules.specs.declared.checks.CheckKind.TheVariants.{ArrayBounds, PointerArithmetic};
ghost use Rattle.c_model.specs.Store as spec;
ghost use Rattle.c_values.specs.Pointing.{offset_in};

use c_model::{CheckKind, Outcome, Scalar};
use kv_base::NoMemory;

/// So many cells further on in an object, without a check. Out of memory where no machine number counts them.
pub fn further(count: u64, place: Scalar) -> Result<Scalar, NoMemory>
    ensures value { IfOk result (λ made. made ≡ spec.further count place) }
    ensures counted { offset_in place + count < 2 ^ 64 → IsOk result }
{
    match place {
        Scalar::Inside { object, offset } => match offset.checked_add(count as usize) {
            Some(offset) => Ok(Scalar::Inside { object, offset }),
            None => Err(NoMemory),
        },
        _ => Ok(place),
    }
}

/// What a pointer that leaves its object gives (6.5.6p8).
pub(crate) fn outside() -> Outcome
    ensures { result ≡ Unmet PointerArithmetic }
{
    Outcome::Unmet {
        check: CheckKind::PointerArithmetic,
    }
}

/// A pointer to a cell of an object of `end` cells, or to one past the last (6.5.6p8).
fn moved_to(end: usize, object: usize, to: i128) -> Outcome
    ensures { (there : Object) → length there.cells ≡ end → result ≡ spec.moved_to object to (Some there) }
{
    if to < 0 || to > end as i128 {
        return outside();
    }
    Outcome::Gives {
        value: Scalar::Inside {
            object,
            offset: to as usize,
        },
    }
}

/// A pointer that is moved by n elements of `size` cells in an object of `end` cells. A distance that no machine number
/// counts leads out of every object.
pub(crate) fn moved_from(size: u64, n: i128, end: usize, object: usize, offset: usize) -> Outcome
    ensures { (there : Object) → length there.cells ≡ end → result ≡ spec.moved_to object (pos offset +ℤ (n *ℤ pos size)) (Some there) }
{
    let distance = n.saturating_mul(i128::from(size));
    moved_to(end, object, distance.saturating_add(offset as i128))
}

/// The place of element n of an array of this length at a place, whose elements have `size` cells each (6.5.2.1p2). Out of
/// memory where no machine number counts the cells before it.
pub fn element(length: u64, size: u64, n: i128, array: Scalar) -> Result<Outcome, NoMemory>
    ensures value { IfOk result (λ made. made ≡ spec.element length size n array) }
    ensures counted { offset_in array + length * size < 2 ^ 64 → IsOk result }
{
    if n < 0 || n >= i128::from(length) {
        return Ok(Outcome::Unmet {
            check: CheckKind::ArrayBounds,
        });
    }
    match (n as u64).checked_mul(size) {
        Some(count) => {
            let value = further(count, array)?;
            Ok(Outcome::Gives { value })
        }
        None => Err(NoMemory),
    }
}
