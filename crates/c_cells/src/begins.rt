//! Cells that begin with those of a type.

ghost use Rattle.std.specs.Prelude.{◌≡◌};
ghost use Rattle.c_kinds.specs.Layouts as spec;

use c_arithmetic::same_cell;
use c_kinds::CellType;

/// Whether the cells there begin with ones of these types, but for qualifiers.
pub fn begins_with(there: &[CellType], types: &[CellType]) -> bool
    ensures { result ≡ spec.begins_with there.now types.now }
{
    for (at, cell) in types.iter().enumerate() {
        match there.get(at) {
            Some(found) => {
                if !same_cell(found, cell) {
                    return false;
                }
            }
            None => return false,
        }
    }
    true
}
