//! How many cells objects have, of any type.

ghost use Rattle.std.specs.Prelude.{◌≡◌, ◌≤◌, ◌^◌, min, MatchOption};
ghost use Rattle.std.specs.Option.{option_copied};
ghost use Rattle.c_kinds.specs.Layouts as spec;
ghost use Rattle.c_kinds.specs.Types.{inner};

use c_kinds::{Base, CType, Derivation, Struct};

/// How many cells a struct has, if there is one.
fn struct_cells(found: Option<&Struct>) -> u64
    ensures { result ≡ spec.struct_cells (option_copied found.entry) }
{
    match found {
        None => 0,
        Some(found) => found.cells,
    }
}

/// How many cells an object of a base has.
fn base_cells(structs: &[Struct], base: Base) -> u64
    ensures { result ≡ spec.base_cells structs.now base }
{
    match base {
        Base::Void | Base::Function { .. } => 0,
        Base::Integer { .. } => 1,
        Base::Struct { number } => struct_cells(structs.get(number)),
    }
}

/// How many cells an object of a type with these derivations has, or the greatest `u128` where there are more.
#[tactic(auto, using(c_arithmetic::proofs::Counts::count_step))]
fn counted(structs: &[Struct], derived: &[Derivation], base: Base) -> u128
    ensures { result ≡ min (spec.cells_by structs.now derived.now base) u128.MAX }
{
    let mut count = 1u128;
    for derivation in derived {
        match derivation {
            Derivation::Pointer { .. } => return count,
            Derivation::Array { length } => count = count.saturating_mul(u128::from(*length)),
        }
    }
    count.saturating_mul(u128::from(base_cells(structs, base)))
}

/// How many cells an object of a type with these derivations has, if a `u64` holds it.
fn exact_cells(structs: &[Struct], derived: &[Derivation], base: Base) -> Option<u64>
    ensures { MatchOption result (2 ^ 64 ≤ spec.cells_by structs.now derived.now base) (λ n. n ≡ spec.cells_by structs.now derived.now base) }
{
    let count = counted(structs, derived, base);
    if count > u128::from(u64::MAX) {
        return None;
    }
    Some(count as u64)
}

/// How many cells an element of an array of this type has, or what a pointer of it points to, if a `u64` holds it.
pub(crate) fn inner_cells(structs: &[Struct], ctype: &CType) -> Option<u64>
    ensures { MatchOption result (2 ^ 64 ≤ spec.cell_count structs.now (inner ctype.now)) (λ n. n ≡ spec.cell_count structs.now (inner ctype.now)) }
{
    match ctype.derived.as_slice() {
        [] => exact_cells(structs, &[], ctype.base),
        [_, rest @ ..] => exact_cells(structs, rest, ctype.base),
    }
}
