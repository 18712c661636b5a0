//! Addresses of cells of static objects as constants (C11 6.6p9).

ghost use Rattle.std.specs.Prelude.{◌≡◌, ◌<◌, ◌+◌, ◌*◌, ◌^◌, pos, ◌+ℤ◌, ◌*ℤ◌, int_lt, unsigned_abs, not, ◌||◌, if◌then◌else◌};
ghost use Rattle.c_kinds.specs.declared.typed.Fixed.TheVariants.{At, Breaks};
ghost use Rattle.c_kinds.specs.declared.types.CType.{CType};
ghost use Rattle.c_kinds.specs.Layouts.{Layout, cell_count, object_cells};
ghost use Rattle.c_kinds.specs.Addresses as spec;
ghost use Rattle.c_arithmetic.specs.Places.{HasRoom, PointsInto};

use c_kinds::Fixed;

/// An address in an object of `end` cells (6.5.6p8).
fn moved_to(end: u64, object: usize, cell: i128) -> Fixed
    ensures { (l : Layout) → object_cells l object ≡ end → result ≡ spec.moved_to l object cell }
{
    if cell < 0 || i128::from(end) < cell {
        return Fixed::Breaks;
    }
    Fixed::At {
        object,
        cell: cell as u64,
    }
}

/// A member's place in the place of its struct (6.5.2.3).
pub fn further_in(cells: u64, place: Fixed) -> Fixed
    requires { HasRoom cells place }
    ensures { result ≡ spec.further_in cells place }
{
    match place {
        Fixed::At { object, cell } => Fixed::At {
            object,
            cell: cell + cells,
        },
        _ => place,
    }
}

/// The address of a cell, some elements of `cells` cells further on in an object of `end` cells. A number of cells that
/// no machine number holds leads out of every object.
fn moved_from(cells: u64, end: u64, object: usize, cell: u64, n: i128) -> Fixed
    ensures { (l : Layout) → object_cells l object ≡ end → result ≡ spec.moved_to l object (pos cell +ℤ n *ℤ pos cells) }
{
    let distance = n.saturating_mul(i128::from(cells));
    moved_to(end, object, distance.saturating_add(i128::from(cell)))
}

/// A pointer some elements of `cells` cells further on (6.5.6p8). If it points into an object, `end` is how many cells
/// that has.
pub fn moved(cells: u64, end: u64, pointer: Fixed, index: Fixed) -> Fixed
    ensures { (l : Layout) (pointee : CType) → cell_count l.structs pointee ≡ cells → PointsInto l end pointer → result ≡ spec.moved l pointee pointer index }
{
    match (pointer, index) {
        (Fixed::Varies, _) => Fixed::Varies,
        (Fixed::At { object, cell }, Fixed::Number { value }) => {
            moved_from(cells, end, object, cell, value)
        }
        (Fixed::Null | Fixed::Breaks, Fixed::Number { .. }) => Fixed::Breaks,
        (_, Fixed::NoValue) => Fixed::NoValue,
        _ => Fixed::Varies,
    }
}

/// The place of an element of `cells` cells in an array of this length (6.5.6p8).
fn element_at(length: u64, cells: u64, object: usize, cell: u64, n: i128) -> Fixed
    requires { cell + length * cells < 2 ^ 64 }
    ensures { result ≡ (if int_lt n (pos 0) || not (int_lt n (pos length)) then Breaks else At object (cell + unsigned_abs n * cells)) }
{
    if n < 0 || n >= i128::from(length) {
        return Fixed::Breaks;
    }
    Fixed::At {
        object,
        cell: cell + n as u64 * cells,
    }
}

/// The place of an element of `cells` cells in an array of this length, whose place is given (6.5.6p8). The array ends
/// in its object, and so its cells have numbers.
pub fn element_of(length: u64, cells: u64, array: Fixed, index: Fixed) -> Fixed
    requires { HasRoom (length * cells) array }
    ensures { (l : Layout) (element : CType) → cell_count l.structs element ≡ cells → result ≡ spec.element_of l length element array index }
{
    match (array, index) {
        (Fixed::Varies, _) => Fixed::Varies,
        (Fixed::At { object, cell }, Fixed::Number { value }) => {
            element_at(length, cells, object, cell, value)
        }
        (Fixed::Breaks, Fixed::Number { .. }) => Fixed::Breaks,
        (_, Fixed::NoValue) => Fixed::NoValue,
        _ => Fixed::Varies,
    }
}
