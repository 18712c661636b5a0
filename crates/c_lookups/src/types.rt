//! Types that are looked at, and their parts.

ghost use Rattle.std.specs.Prelude.{◌≡◌, ◌<◌, IfOk, IsOk};
ghost use Rattle.std.specs.Option.{option_copied};
ghost use Rattle.c_kinds.specs.Layouts.{members_of};
ghost use Rattle.c_kinds.specs.Types as types;
ghost use Rattle.c_model.specs.Programs as spec;
ghost use Rattle.c_lookups.specs.Types.{seen};

use c_arithmetic::{cells_by, member_in, members_of, shape_by};
use c_kinds::{Base, CType, Derivation, Member, Shape};
use c_model::Program;
use kv_base::NoMemory;

/// A type that is looked at: that of a whole object, or of a part of one.
#[derive(Clone, Copy, Debug, Drop)]
pub struct TypeView<'p> {
    pub derived: &'p [Derivation],
    pub base: Base,
    pub is_const: bool,
}

/// A whole type.
pub fn whole(ctype: &CType) -> TypeView<'_>
    ensures { seen result ≡ ctype.now }
{
    TypeView {
        derived: ctype.derived.as_slice(),
        base: ctype.base,
        is_const: ctype.is_const,
    }
}

/// The type `void`.
fn void<'p>() -> TypeView<'p>
    ensures { seen result ≡ types.void }
{
    TypeView {
        derived: &[],
        base: Base::Void,
        is_const: false,
    }
}

/// A type, and `void` where there is none.
pub(crate) fn or_void(found: Option<&CType>) -> TypeView<'_>
    ensures { seen result ≡ spec.or_else types.void (option_copied found.entry) }
{
    match found {
        Some(ctype) => whole(ctype),
        None => void(),
    }
}

/// The outermost part of a type.
pub fn shape_of(ctype: TypeView<'_>) -> Shape
    ensures { result ≡ types.shape_of (seen ctype.entry) }
{
    shape_by(ctype.derived, ctype.base)
}

/// What a pointer points to, or an element of an array (C11 6.2.5p20).
pub fn inner<'p>(ctype: TypeView<'p>) -> TypeView<'p>
    ensures { seen result ≡ types.inner (seen ctype.entry) }
{
    match ctype.derived {
        [] => ctype,
        [_, rest @ ..] => TypeView {
            derived: rest,
            base: ctype.base,
            is_const: ctype.is_const,
        },
    }
}

/// How many cells an object of the type has. Out of memory where no machine number counts them.
pub fn cell_count(program: &Program, ctype: TypeView<'_>) -> Result<u64, NoMemory>
    ensures value { IfOk result (λ count. count ≡ spec.cell_count program.now (seen ctype.entry)) }
    ensures counted { spec.cell_count program.now (seen ctype.entry) < u64.MAX → IsOk result }
{
    let count = cells_by(program.names.structs.as_slice(), ctype.derived, ctype.base);
    if count == u64::MAX {
        return Err(NoMemory);
    }
    Ok(count)
}

/// The members of a type, in order (C11 6.7.2.1p6): those of a struct; other types have none.
pub fn members<'p>(program: &'p Program, ctype: TypeView<'_>) -> &'p [Member]
    ensures { result.now ≡ spec.members program.now (seen ctype.entry) }
{
    match shape_of(ctype) {
        Shape::Struct { number } => members_of(program.names.structs.as_slice(), number),
        _ => &[],
    }
}

/// How many cells stand before the member of this name.
pub fn offset_of(program: &Program, ctype: TypeView<'_>, name: &[u8]) -> u64
    ensures { result ≡ spec.offset_of program.now (seen ctype.entry) name.now }
{
    match member_in(members(program, ctype), name) {
        Some(member) => member.cell,
        None => 0,
    }
}

/// The type of a member, if there is one.
fn type_of_member(found: Option<&Member>) -> TypeView<'_>
    ensures { seen result ≡ spec.type_of_member (option_copied found.entry) }
{
    match found {
        Some(member) => or_void(member.ctype.as_ref()),
        None => void(),
    }
}

/// The type of a part, by its number from 0: a member's type, or the element type of an array (C11 6.2.5p20).
pub fn part_type<'p>(program: &'p Program, ctype: TypeView<'p>, part: usize) -> TypeView<'p>
    ensures { seen result ≡ spec.part_type program.now (seen ctype.entry) part }
{
    match shape_of(ctype) {
        Shape::Struct { number } => {
            let members = members_of(program.names.structs.as_slice(), number);
            type_of_member(members.get(part))
        }
        _ => inner(ctype),
    }
}
