//! Arrays as so many elements that are no arrays.

ghost use Rattle.std.specs.Prelude.{◌≡◌, ◌*◌, ℕ, Bool, List, IfOk};
ghost use Rattle.c_kinds.specs.declared.types.Base.{Base};
ghost use Rattle.c_kinds.specs.declared.types.CellType.{CellType};
ghost use Rattle.c_kinds.specs.Layouts.{repeated, cell_types_by};
ghost use Rattle.c_cells.specs.Elements.{IsElement};

use c_kinds::Derivation;
use kv_base::NoMemory;

/// So many elements with these derivations.
#[derive(Clone, Copy, Debug, Drop)]
pub(crate) struct Several<'t> {
    pub(crate) count: u64,
    pub(crate) rest: &'t [Derivation],
}

/// A product. Out of memory where no machine number is it.
fn product(left: u64, right: u64) -> Result<u64, NoMemory>
    ensures { IfOk result (λ made. made ≡ left * right) }
{
    match left.checked_mul(right) {
        Some(made) => Ok(made),
        None => Err(NoMemory),
    }
}

/// The elements of an array, of one in an array and so on, which are no arrays themselves. What is no array is one element.
/// Out of memory where no machine number counts them.
pub(crate) fn elements(derived: &[Derivation]) -> Result<Several<'_>, NoMemory>
    ensures same { IfOk result (λ e. (of_struct : ℕ → List CellType) (base : Base) (is_const : Bool) → repeated e.count (cell_types_by of_struct e.rest.now base is_const) ≡ cell_types_by of_struct derived.now base is_const) }
    ensures ends { IfOk result (λ e. IsElement e.rest.now) }
{
    let mut count = 1u64;
    for (at, derivation) in derived.iter().enumerate() {
        match derivation {
            Derivation::Array { length } => count = product(count, *length)?,
            Derivation::Pointer { .. } => {
                let rest = &derived[at..];
                return Ok(Several { count, rest });
            }
        }
    }
    Ok(Several { count, rest: &[] })
}
