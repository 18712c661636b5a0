//! Pointers that are moved (C11 6.5.6), and whether a pointer leads to cells.

ghost use Rattle.std.specs.Prelude.{◌≡◌, ◌≤◌, ◌^◌, ◌<◌, ◌*◌, ℕ, pos, ◌+ℤ◌, ◌*ℤ◌, neg_ℤ};
ghost use Rattle.c_kinds.specs.declared.typed.Fixed.TheVariants.{Number};
ghost use Rattle.c_kinds.specs.declared.typed.Fixed.{Fixed as Constant};
ghost use Rattle.c_kinds.specs.declared.types.CType.{CType};
ghost use Rattle.c_kinds.specs.Addresses as addresses;
ghost use Rattle.c_kinds.specs.Constants.{of_one};
ghost use Rattle.c_kinds.specs.Layouts as layouts;
ghost use Rattle.c_kinds.specs.Layouts.{Layout, cell_count};
ghost use Rattle.c_kinds.specs.Operands as spec;
ghost use Rattle.c_kinds.specs.Types.{inner};
ghost use Rattle.c_arithmetic.specs.Places.{HasRoom, PointsInto};
ghost use Rattle.c_operators.specs.Told.{IsCounted, LeadsBy, layout_at};

use crate::Given;
use crate::counts::inner_cells;
use c_arithmetic::{count_if, element_of, inner_shape, is_incomplete_shape, moved};
use c_kinds::{Answer, CType, Fixed, Shape, Typed};
use c_tree::BinaryOperator;

/// The answer, unless it needs the cells that a pointer leads to and there are none: a pointer to void is neither moved
/// nor followed, one to a struct only where the struct is complete (6.5.6p2, 6.5.3.2p2).
pub(crate) fn needs_cells(given: &Given, at: usize, p: &Typed, answer: Answer) -> Answer
    ensures { result ≡ spec.needs_cells (layout_at given.now) at p.now answer }
{
    let pointee = inner_shape(&p.ctype);
    if matches!(pointee, Shape::Void) {
        return Answer::Breaks { rule: 12, at };
    }
    if is_incomplete_shape(given.names.structs.as_slice(), p.ends_at, pointee) {
        return Answer::Breaks {
            rule: 10,
            at: p.named_at,
        };
    }
    answer
}

/// How many cells a declared object has.
#[tactic(auto, using(crate::proofs::Objects::object_type_at))]
pub(crate) fn object_cells(given: &Given, object: usize) -> u64
    requires { IsCounted (layout_at given.now) }
    ensures { result ≡ layouts.object_cells (layout_at given.now) object }
{
    match given.names.objects.get(object) {
        None => 0,
        Some(found) => count_if(given.names.structs.as_slice(), found.ctype.as_ref()),
    }
}

/// How many cells the object has that a pointer points into, if it points into one.
fn object_end(given: &Given, pointer: Fixed) -> u64
    requires { IsCounted (layout_at given.now) }
    ensures { PointsInto (layout_at given.now) result pointer }
{
    match pointer {
        Fixed::At { object, .. } => object_cells(given, object),
        _ => 0,
    }
}

/// The address of a cell, some elements further on, of which one has more cells than any object.
#[tactic(auto, using(crate::proofs::Distances::leaves))]
fn moved_far(end: u64, object: usize, cell: u64, n: i128) -> Fixed
    ensures { (l : Layout) (pointee : CType) → layouts.object_cells l object ≡ end → 2 ^ 64 ≤ cell_count l.structs pointee → result ≡ addresses.moved_to l object (pos cell +ℤ n *ℤ pos (cell_count l.structs pointee)) }
{
    if n != 0 {
        return Fixed::Breaks;
    }
    if end < cell {
        return Fixed::Breaks;
    }
    Fixed::At { object, cell }
}

/// A pointer some elements further on, of which one has more cells than any object (6.5.6p8).
fn moved_past(end: u64, pointer: Fixed, index: Fixed) -> Fixed
    ensures { (l : Layout) (pointee : CType) → 2 ^ 64 ≤ cell_count l.structs pointee → PointsInto l end pointer → result ≡ addresses.moved l pointee pointer index }
{
    match (pointer, index) {
        (Fixed::Varies, _) => Fixed::Varies,
        (Fixed::At { object, cell }, Fixed::Number { value }) => {
            moved_far(end, object, cell, value)
        }
        (Fixed::Null | Fixed::Breaks, Fixed::Number { .. }) => Fixed::Breaks,
        (_, Fixed::NoValue) => Fixed::NoValue,
        _ => Fixed::Varies,
    }
}

/// A pointer of this type, so many elements further on (6.5.6p8).
pub(crate) fn moved_on(given: &Given, ctype: &CType, pointer: Fixed, index: Fixed) -> Fixed
    requires { IsCounted (layout_at given.now) }
    ensures { result ≡ addresses.moved (layout_at given.now) (inner ctype.now) pointer index }
{
    let end = object_end(given, pointer);
    match inner_cells(given.names.structs.as_slice(), ctype) {
        Some(cells) => moved(cells, end, pointer, index),
        None => moved_past(end, pointer, index),
    }
}

/// A number with the other sign, or the greatest one where there is none: that leads as far.
fn opposite(n: i128) -> i128
    ensures { (l : Layout) (pointee : CType) (p : Constant) → ((object : ℕ) → layouts.object_cells l object < 2 ^ 64) → addresses.moved l pointee p (Number result) ≡ addresses.moved l pointee p (Number (neg_ℤ n)) }
{
    if n == i128::MIN {
        return i128::MAX;
    }
    -n
}

/// A pointer of this type, so many elements back (6.5.6p8).
fn moved_back(given: &Given, ctype: &CType, pointer: Fixed, index: Fixed) -> Fixed
    requires { IsCounted (layout_at given.now) }
    ensures { result ≡ addresses.moved (layout_at given.now) (inner ctype.now) pointer (of_one index (λ i. Number (neg_ℤ i))) }
{
    match index {
        Fixed::Number { value } => {
            let value = opposite(value);
            moved_on(given, ctype, pointer, Fixed::Number { value })
        }
        Fixed::NoValue => moved_on(given, ctype, pointer, Fixed::NoValue),
        _ => moved_on(given, ctype, pointer, Fixed::Varies),
    }
}

/// A pointer of this type, so many elements further on, or back for `-` (6.5.6p8).
pub(crate) fn moved_by(
    given: &Given,
    operator: BinaryOperator,
    ctype: &CType,
    pointer: Fixed,
    index: Fixed,
) -> Fixed
    requires { IsCounted (layout_at given.now) }
    ensures { result ≡ addresses.moved (layout_at given.now) (inner ctype.now) pointer (spec.distance operator index) }
{
    match operator {
        BinaryOperator::Subtract => moved_back(given, ctype, pointer, index),
        _ => moved_on(given, ctype, pointer, index),
    }
}

/// The place of an element in an array, whose elements have more cells than any object: the array has none.
fn element_past(array: Fixed, index: Fixed) -> Fixed
    ensures { (l : Layout) (length : ℕ) (element : CType) → 2 ^ 64 ≤ cell_count l.structs element → HasRoom (length * cell_count l.structs element) array → result ≡ addresses.element_of l length element array index }
{
    match (array, index) {
        (Fixed::Varies, _) => Fixed::Varies,
        (Fixed::At { .. } | Fixed::Breaks, Fixed::Number { .. }) => Fixed::Breaks,
        (_, Fixed::NoValue) => Fixed::NoValue,
        _ => Fixed::Varies,
    }
}

/// The place of an element in an array of this type and length, whose place is given (6.5.6p8).
pub(crate) fn element_in(
    given: &Given,
    length: u64,
    ctype: &CType,
    array: Fixed,
    index: Fixed,
) -> Fixed
    requires { HasRoom (length * cell_count (layout_at given.now).structs (inner ctype.now)) array }
    ensures { result ≡ addresses.element_of (layout_at given.now) length (inner ctype.now) array index }
{
    match inner_cells(given.names.structs.as_slice(), ctype) {
        Some(cells) => element_of(length, cells, array, index),
        None => element_past(array, index),
    }
}

/// The place that a pointer leads to (6.5.3.2p4). If it leads into a static object, `leads` is whether there are the
/// cells of what it points to.
pub(crate) fn followed(pointer: Fixed, leads: bool) -> Fixed
    ensures value { (l : Layout) (pointee : CType) → LeadsBy l pointee pointer leads → result ≡ addresses.followed l pointee pointer }
    ensures room { (l : Layout) (pointee : CType) → IsCounted l → LeadsBy l pointee pointer leads → HasRoom (cell_count l.structs pointee) result }
{
    match pointer {
        Fixed::At { object, cell } => {
            if leads {
                Fixed::At { object, cell }
            } else {
                Fixed::Breaks
            }
        }
        Fixed::Null => Fixed::Breaks,
        Fixed::Number { .. } => Fixed::Varies,
        _ => pointer,
    }
}
