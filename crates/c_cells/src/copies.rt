//! Copies of the types of cells.

ghost use Rattle.std.specs.Prelude.{◌≡◌, IfOk};
ghost use Rattle.c_kinds.specs.Layouts.{repeated};

use c_kinds::CellType;
use kv_base::{Copied, NoMemory, Sequence};
use std::alloc::Global;

/// The type of a cell, once more.
fn copy_cell(alloc: Global, cell: &CellType) -> Result<CellType, NoMemory>
    ensures { IfOk result (λ made. made ≡ cell.now) }
{
    match cell {
        CellType::Integer { kind } => Ok(CellType::Integer { kind: *kind }),
        CellType::Pointer { pointee } => Ok(CellType::Pointer {
            pointee: pointee.copy(alloc)?,
        }),
    }
}

/// The types of cells, once more.
fn copy_cells(alloc: Global, cells: &[CellType]) -> Result<Sequence<CellType>, NoMemory>
    ensures { IfOk result (λ made. made ≡ cells.now) }
{
    let mut made = Sequence::new(alloc);
    for cell in cells {
        made.push(copy_cell(alloc, cell)?)?;
    }
    Ok(made)
}

/// The types of cells, so many times.
#[tactic(auto, using(crate::proofs::Repeats::once_more))]
pub(crate) fn repeated(
    alloc: Global,
    count: u64,
    cells: Sequence<CellType>,
) -> Result<Sequence<CellType>, NoMemory>
    ensures { IfOk result (λ made. made ≡ repeated count cells) }
{
    let mut made = Sequence::new(alloc);
    for _ in 0..count {
        made.append(copy_cells(alloc, cells.as_slice())?)?;
    }
    Ok(made)
}
