//! The types of the cells of types.

ghost use Rattle.std.specs.Prelude.{◌≡◌, [], ◌∷◌, false, length, IfOk};
ghost use Rattle.c_kinds.specs.declared.types.Derivation.TheVariants.{Pointer};
ghost use Rattle.std.specs.Option.{option_copied};
ghost use Rattle.c_kinds.specs.Layouts as spec;
ghost use Rattle.c_cells.specs.Elements.{IsElement};

use crate::copies::repeated;
use crate::elements::elements;
use c_arithmetic::members_of;
use c_kinds::{Base, CType, CellType, Derivation, Member, Struct};
use kv_base::{NoMemory, Sequence};
use std::alloc::Global;

/// The types of cells, in order.
pub type CellTypes = Sequence<CellType>;

/// How deep structs may lie in one another. Past that the cells are out of memory.
pub const MAX_NESTING: u32 = 500;

/// The cell of a pointer to a type with these derivations.
fn pointer_cell(
    alloc: Global,
    derived: &[Derivation],
    base: Base,
    is_const: bool,
) -> Result<CellTypes, NoMemory>
    ensures { IfOk result (λ made. made ≡ spec.cell_types_by (λ _. []) (Pointer false ∷ derived.now) base is_const) }
{
    let pointee = CType {
        derived: Sequence::from_slice(alloc, derived)?,
        base,
        is_const,
    };
    let mut made = Sequence::new(alloc);
    made.push(CellType::Pointer { pointee })?;
    Ok(made)
}

/// The types of the cells of a type with these derivations, where structs lie so deep in one another at most.
#[cycle(types)]
fn types_by(
    alloc: Global,
    structs: &[Struct],
    depth: usize,
    room: u32,
    derived: &[Derivation],
    base: Base,
    is_const: bool,
) -> Result<CellTypes, NoMemory>
    ensures { IfOk result (λ made. made ≡ spec.cell_types_by (spec.struct_cell_types structs.now depth) derived.now base is_const) }
{
    let several = elements(derived)?;
    let one = one_element(alloc, structs, depth, room, several.rest, base, is_const)?;
    let made = repeated(alloc, several.count, one)?;
    Ok(made)
}

/// The types of the cells of one element.
#[cycle(types)]
fn one_element(
    alloc: Global,
    structs: &[Struct],
    depth: usize,
    room: u32,
    derived: &[Derivation],
    base: Base,
    is_const: bool,
) -> Result<CellTypes, NoMemory>
    requires { IsElement derived.now }
    ensures { IfOk result (λ made. made ≡ spec.cell_types_by (spec.struct_cell_types structs.now depth) derived.now base is_const) }
{
    match derived {
        [] => {
            let made = base_types(alloc, structs, depth, room, base, is_const)?;
            Ok(made)
        }
        [_, pointee @ ..] => {
            let made = pointer_cell(alloc, pointee, base, is_const)?;
            Ok(made)
        }
    }
}

/// The types of the cells of a type without derivations.
#[cycle(types)]
fn base_types(
    alloc: Global,
    structs: &[Struct],
    depth: usize,
    room: u32,
    base: Base,
    is_const: bool,
) -> Result<CellTypes, NoMemory>
    ensures { IfOk result (λ made. made ≡ spec.cell_types_by (spec.struct_cell_types structs.now depth) [] base is_const) }
{
    match base {
        Base::Void | Base::Function { .. } => Ok(Sequence::new(alloc)),
        Base::Integer { kind } => {
            let mut made = Sequence::new(alloc);
            made.push(CellType::Integer { kind })?;
            Ok(made)
        }
        Base::Struct { number } => {
            let made = struct_types(alloc, structs, depth, room, number)?;
            Ok(made)
        }
    }
}

/// The types of the cells of a struct, in the order of its members (C11 6.7.2.1p6).
#[cycle(types)]
fn struct_types(
    alloc: Global,
    structs: &[Struct],
    depth: usize,
    room: u32,
    number: usize,
) -> Result<CellTypes, NoMemory>
    ensures { IfOk result (λ made. made ≡ spec.struct_cell_types structs.now depth number) }
{
    if depth == 0 {
        return Ok(Sequence::new(alloc));
    }
    if room == 0 {
        return Err(NoMemory);
    }
    let members = members_of(structs, number);
    let made = all_members(alloc, structs, depth - 1, room - 1, members)?;
    Ok(made)
}

/// The types of the cells of members, in order.
#[cycle(types)]
fn all_members(
    alloc: Global,
    structs: &[Struct],
    depth: usize,
    room: u32,
    members: &[Member],
) -> Result<CellTypes, NoMemory>
    ensures { IfOk result (λ made. made ≡ spec.members_cells (spec.struct_cell_types structs.now depth) members.now) }
{
    let mut made = Sequence::new(alloc);
    for member in members {
        let cells = member_types(alloc, structs, depth, room, member.ctype.as_ref())?;
        made.append(cells)?;
    }
    Ok(made)
}

/// The types of the cells of a member. One without a type has none.
#[cycle(types)]
fn member_types(
    alloc: Global,
    structs: &[Struct],
    depth: usize,
    room: u32,
    ctype: Option<&CType>,
) -> Result<CellTypes, NoMemory>
    ensures { IfOk result (λ made. made ≡ spec.member_cells (spec.struct_cell_types structs.now depth) (option_copied ctype.entry)) }
{
    match ctype {
        None => Ok(Sequence::new(alloc)),
        Some(ctype) => {
            let derived = ctype.derived.as_slice();
            let made = types_by(
                alloc,
                structs,
                depth,
                room,
                derived,
                ctype.base,
                ctype.is_const,
            )?;
            Ok(made)
        }
    }
}

/// The types of the cells of an object with these derivations, in order. Out of memory where structs lie more than
/// `MAX_NESTING` deep in one another, or where no machine number counts the elements.
pub fn cell_types(
    alloc: Global,
    structs: &[Struct],
    derived: &[Derivation],
    base: Base,
    is_const: bool,
) -> Result<CellTypes, NoMemory>
    ensures { IfOk result (λ made. made ≡ spec.cell_types_by (spec.struct_cell_types structs.now (length structs.now)) derived.now base is_const) }
{
    let made = types_by(
        alloc,
        structs,
        structs.len(),
        MAX_NESTING,
        derived,
        base,
        is_const,
    )?;
    Ok(made)
}
