//! How many bytes and cells objects have (C11 6.5.3.4). Sizes have no bound in the definitions: those in bytes are computed
//! modulo the size of the type of `sizeof`, and counts of cells up to the greatest `u64`.

ghost use Rattle.std.specs.Prelude.{◌≡◌, ◌*ℤ◌, min, pos};
ghost use Rattle.std.specs.Option.{option_map, option_copied};
ghost use Rattle.kv_num.specs.IntType.{InRange, wrap_of};
ghost use Rattle.c_kinds.specs.Integers.{size_type};
ghost use Rattle.c_kinds.specs.Layouts as spec;

use crate::equal::{alike, same_integer};
use crate::integers::{bytes_of, pointer_bytes, size_type};
use c_kinds::{Base, CType, CellType, Derivation, Struct};
use c_tokens::DataModel;
use kv_num::{mul, wrap};

/// How many bytes an object of a base has, if the accepted C asks it.
fn base_bytes(base: Base) -> Option<u8>
    ensures { result ≡ spec.base_bytes base }
{
    match base {
        Base::Integer { kind } => Some(bytes_of(kind)),
        _ => None,
    }
}

/// A number of elements times a size, modulo the size of the type of `sizeof`.
#[tactic(auto, using(crate::proofs::Wrapping::wrapped_right))]
fn times(model: DataModel, count: i128, size: i128) -> i128
    requires { InRange (size_type model) count }
    ensures value { result ≡ wrap_of (size_type model) (count *ℤ size) }
    ensures range { InRange (size_type model) result }
{
    let kind = size_type(model);
    mul(kind, count, wrap(kind, size)).value
}

/// How many bytes an object of the type has, modulo the size of the type of `sizeof` (6.5.3.4p2, 6.2.5p9). It is
/// asked of no struct, array of structs, function or `void`.
#[tactic(auto, using(crate::proofs::Wrapping::size_step))]
pub fn wrapped_bytes(model: DataModel, ctype: &CType) -> Option<i128>
    ensures { result ≡ option_map (λ bytes. wrap_of (size_type model) (pos bytes)) (spec.size_in_bytes model ctype.now) }
{
    let mut count = 1;
    for derivation in ctype.derived.as_slice() {
        match derivation {
            Derivation::Pointer { .. } => {
                return Some(times(model, count, i128::from(pointer_bytes(model))));
            }
            Derivation::Array { length } => count = times(model, count, i128::from(*length)),
        }
    }
    match base_bytes(ctype.base) {
        None => None,
        Some(size) => Some(times(model, count, i128::from(size))),
    }
}

/// How many cells a struct has, if there is one.
fn struct_cells(found: Option<&Struct>) -> u64
    ensures { result ≡ spec.struct_cells (option_copied found.entry) }
{
    match found {
        None => 0,
        Some(found) => found.cells,
    }
}

/// How many cells an object of a base has.
fn base_cells(structs: &[Struct], base: Base) -> u64
    ensures { result ≡ spec.base_cells structs.now base }
{
    match base {
        Base::Void | Base::Function { .. } => 0,
        Base::Integer { .. } => 1,
        Base::Struct { number } => struct_cells(structs.get(number)),
    }
}

/// How many cells an object of a type with these derivations has, or the greatest `u64` where there are more.
#[tactic(auto, using(crate::proofs::Counts::count_step))]
pub fn cells_by(structs: &[Struct], derived: &[Derivation], base: Base) -> u64
    ensures { result ≡ min (spec.cells_by structs.now derived.now base) u64.MAX }
{
    let mut count = 1u64;
    for derivation in derived {
        match derivation {
            Derivation::Pointer { .. } => return count,
            Derivation::Array { length } => count = count.saturating_mul(*length),
        }
    }
    count.saturating_mul(base_cells(structs, base))
}

/// How many cells an object of the type has, or the greatest `u64` where there are more.
pub fn cell_count(structs: &[Struct], ctype: &CType) -> u64
    ensures { result ≡ min (spec.cell_count structs.now ctype.now) u64.MAX }
{
    cells_by(structs, ctype.derived.as_slice(), ctype.base)
}

/// How many cells an object has, of a type if it has one, or the greatest `u64` where there are more.
pub fn count_if(structs: &[Struct], ctype: Option<&CType>) -> u64
    ensures { result ≡ min (spec.count_if structs.now (option_copied ctype.entry)) u64.MAX }
{
    match ctype {
        None => 0,
        Some(ctype) => cell_count(structs, ctype),
    }
}

/// Whether two types of cells are the same but for qualifiers.
pub fn same_cell(left: &CellType, right: &CellType) -> bool
    ensures { result ≡ spec.same_cell left.now right.now }
{
    match (left, right) {
        (CellType::Integer { kind: first }, CellType::Integer { kind: second }) => {
            same_integer(*first, *second)
        }
        (CellType::Pointer { pointee: first }, CellType::Pointer { pointee: second }) => {
            alike(first, second)
        }
        _ => false,
    }
}
