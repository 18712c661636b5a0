//! Elements of arrays and members of structs (C11 6.5.2.1, 6.5.2.3).

ghost use Rattle.std.specs.Prelude.{◌≡◌, ◌*◌, ◌+◌, ◌<◌, ◌^◌, IfOk, slice_get};
ghost use Rattle.std.specs.Option.{option_copied};
ghost use Rattle.c_kinds.specs.declared.answer.Answer.TheVariants.{Gives};
ghost use Rattle.c_kinds.specs.Addresses.{moved};
ghost use Rattle.c_kinds.specs.Elements as spec;
ghost use Rattle.c_kinds.specs.Layouts.{cell_count, struct_cells};
ghost use Rattle.c_kinds.specs.Operands as operands;
ghost use Rattle.c_kinds.specs.Types as types;
ghost use Rattle.c_kinds.specs.Values as values;
ghost use Rattle.c_arithmetic.specs.Places.{HasRoom};
ghost use Rattle.c_operators.specs.Told.{GivesItsCells, HasItsCells, HasMemberRoom, IsCounted, LeadsBy, layout_at};

use crate::Given;
use crate::moves::{element_in, followed, moved_on, needs_cells};
use crate::values::{inner_copy, place_typed};
use c_arithmetic::{
    also_const, const_of, further_in, is_integer, is_pointer, member_in, members_by, shape_of,
    struct_is_complete,
};
use c_kinds::{Answer, CType, Fixed, Member, Shape, Typed};
use kv_base::{Copied, NoMemory};
use std::alloc::Global;

/// An element of an array of this length. Its bounds are checked; `&` of it moves the pointer to the first one alone.
fn array_element(given: &Given, length: u64, a: &Typed, i: &Typed) -> Result<Answer, NoMemory>
    requires counted { IsCounted (layout_at given.now) }
    requires room { HasRoom (length * cell_count (layout_at given.now).structs (types.inner a.now.ctype)) a.now.fixed }
    ensures { IfOk result (λ answer. answer ≡ spec.array_element (layout_at given.now) length a.now i.now) }
{
    let ctype = inner_copy(given.alloc, &a.ctype)?;
    let fixed = element_in(given, length, &a.ctype, a.fixed, i.fixed);
    let address = moved_on(given, &a.ctype, a.fixed, i.fixed);
    Ok(Answer::Gives {
        typed: place_typed(ctype, fixed, address, a.named_at, i.ends_at),
    })
}

/// What a pointer leads to that is moved by an index. As a constant the pointer is `pointer`; if it leads into a static
/// object, `leads` is whether there are the cells of an element.
fn pointed_element(
    given: &Given,
    at: usize,
    p: &Typed,
    pointer: Fixed,
    i: &Typed,
    leads: bool,
) -> Result<Answer, NoMemory>
    requires counted { IsCounted (layout_at given.now) }
    requires leads { let l = layout_at given.now in LeadsBy l (types.inner p.now.ctype) (moved l (types.inner p.now.ctype) pointer i.now.fixed) leads }
    ensures { IfOk result (λ answer. answer ≡ spec.pointed_element (layout_at given.now) at (record p.now { fixed = pointer }) i.now) }
{
    let ctype = inner_copy(given.alloc, &p.ctype)?;
    let address = moved_on(given, &p.ctype, pointer, i.fixed);
    let place = followed(address, leads);
    let typed = place_typed(ctype, place, address, p.named_at, i.ends_at);
    Ok(needs_cells(given, at, p, Answer::Gives { typed }))
}

/// The element that a pointer leads to. A pointer variable is read, and so is no constant.
fn read_element(
    given: &Given,
    at: usize,
    p: &Typed,
    i: &Typed,
    leads: bool,
) -> Result<Answer, NoMemory>
    requires counted { IsCounted (layout_at given.now) }
    requires leads { let l = layout_at given.now in LeadsBy l (types.inner p.now.ctype) (moved l (types.inner p.now.ctype) (spec.read_pointer p.now).fixed i.now.fixed) leads }
    ensures { IfOk result (λ answer. answer ≡ spec.pointed_element (layout_at given.now) at (spec.read_pointer p.now) i.now) }
{
    if p.is_place {
        let answer = pointed_element(given, at, p, Fixed::Varies, i, leads)?;
        return Ok(answer);
    }
    let answer = pointed_element(given, at, p, p.fixed, i, leads)?;
    Ok(answer)
}

/// A subscript, at the `[`, of an array or a pointer and an integer value. If a pointer leads into a static object,
/// `leads` is whether there are the cells of an element.
#[tactic(auto, using(crate::proofs::Cells::array_room))]
pub fn subscript(
    given: &Given,
    at: usize,
    a: &Typed,
    i: &Typed,
    leads: bool,
) -> Result<Answer, NoMemory>
    requires counted { IsCounted (layout_at given.now) }
    requires room { HasItsCells (layout_at given.now) a.now }
    requires leads { let l = layout_at given.now in LeadsBy l (types.inner a.now.ctype) (moved l (types.inner a.now.ctype) (spec.read_pointer a.now).fixed i.now.fixed) leads }
    ensures { IfOk result (λ answer. answer ≡ spec.subscript_answer (layout_at given.now) at a.now i.now) }
{
    if !is_integer(&i.ctype) {
        return Ok(Answer::Breaks { rule: 12, at });
    }
    match shape_of(&a.ctype) {
        Shape::Array { length } => {
            let answer = array_element(given, length, a, i)?;
            Ok(answer)
        }
        Shape::Pointer => {
            let answer = read_element(given, at, a, i, leads)?;
            Ok(answer)
        }
        _ => Ok(Answer::Breaks { rule: 12, at }),
    }
}

/// What a value of this shape leads to, if it is a pointer; `&*p` is p (6.5.3.2p4). If it leads into a static object,
/// `leads` is whether there are the cells of what it points to.
#[tactic(auto, using(crate::proofs::PlaceRooms::pointed_room))]
pub fn indirection(given: &Given, at: usize, p: &Typed, leads: bool) -> Result<Answer, NoMemory>
    requires counted { IsCounted (layout_at given.now) }
    requires leads { LeadsBy (layout_at given.now) (types.inner p.now.ctype) p.now.fixed leads }
    ensures value { IfOk result (λ answer. answer ≡ operands.indirection (layout_at given.now) at (types.shape_of p.now.ctype) p.now) }
    ensures room { IfOk result (λ answer. GivesItsCells (layout_at given.now) answer) }
{
    if !is_pointer(&p.ctype) {
        return Ok(Answer::Breaks { rule: 12, at });
    }
    let ctype = inner_copy(given.alloc, &p.ctype)?;
    let place = followed(p.fixed, leads);
    let typed = place_typed(ctype, place, p.fixed, at, p.ends_at);
    Ok(needs_cells(given, at, p, Answer::Gives { typed }))
}

/// A member of this type in the place of its struct, which is `const` or not.
fn member_typed(
    alloc: Global,
    at: usize,
    is_const: bool,
    ctype: &CType,
    place: Fixed,
) -> Result<Answer, NoMemory>
    requires { at + 1 < 2 ^ 64 }
    ensures { IfOk result (λ answer. answer ≡ Gives (values.place (types.also_const is_const ctype.now) place place (at + 1) (at + 1))) }
{
    let copied = ctype.copy(alloc)?;
    let typed = place_typed(also_const(is_const, copied), place, place, at + 1, at + 1);
    Ok(Answer::Gives { typed })
}

/// A member of a struct whose place is given, if there is one. It has no type where its declaration breaks a rule.
fn member_place(
    alloc: Global,
    at: usize,
    object: &Typed,
    member: Option<&Member>,
) -> Result<Answer, NoMemory>
    requires token { at + 1 < 2 ^ 64 }
    requires room { HasMemberRoom (option_copied member) object.now.fixed }
    ensures { IfOk result (λ answer. answer ≡ spec.member_place at object.now (option_copied member.entry)) }
{
    match member {
        None => Ok(Answer::Breaks {
            rule: 3,
            at: at + 1,
        }),
        Some(member) => match &member.ctype {
            None => Ok(Answer::Nothing),
            Some(ctype) => {
                let place = further_in(member.cell, object.fixed);
                let is_const = const_of(&object.ctype);
                let answer = member_typed(alloc, at, is_const, ctype, place)?;
                Ok(answer)
            }
        },
    }
}

/// The member of this name of a struct with this number. A struct that isn't complete has no members.
#[tactic(auto, using(crate::proofs::Cells::found_room))]
fn named_member(
    given: &Given,
    at: usize,
    name: &[u8],
    object: &Typed,
    number: usize,
) -> Result<Answer, NoMemory>
    requires token { at + 1 < 2 ^ 64 }
    requires counted { IsCounted (layout_at given.now) }
    requires room { HasRoom (struct_cells (slice_get given.now.names.now.structs number)) object.now.fixed }
    ensures { IfOk result (λ answer. answer ≡ spec.named_member at name.now object.now (slice_get given.now.names.now.structs number)) }
{
    let found = given.names.structs.get(number);
    if !struct_is_complete(at, found) {
        return Ok(Answer::Breaks {
            rule: 3,
            at: at + 1,
        });
    }
    let member = member_in(members_by(found), name);
    let answer = member_place(given.alloc, at, object, member)?;
    Ok(answer)
}

/// The member of this name of what is a struct.
#[tactic(auto, using(crate::proofs::Cells::struct_room))]
fn member_by(given: &Given, at: usize, name: &[u8], object: &Typed) -> Result<Answer, NoMemory>
    requires token { at + 1 < 2 ^ 64 }
    requires counted { IsCounted (layout_at given.now) }
    requires room { HasItsCells (layout_at given.now) object.now }
    ensures { IfOk result (λ answer. answer ≡ spec.member_by (layout_at given.now) at name.now (types.shape_of object.now.ctype) object.now) }
{
    match shape_of(&object.ctype) {
        Shape::Struct { number } => {
            let answer = named_member(given, at, name, object, number)?;
            Ok(answer)
        }
        _ => Ok(Answer::Breaks { rule: 12, at }),
    }
}

/// `object.name`, of an lvalue alone. The name is the token after the `.`.
pub fn member(given: &Given, at: usize, name: &[u8], object: &Typed) -> Result<Answer, NoMemory>
    requires token { at + 1 < 2 ^ 64 }
    requires counted { IsCounted (layout_at given.now) }
    requires room { HasItsCells (layout_at given.now) object.now }
    ensures { IfOk result (λ answer. answer ≡ spec.member_answer (layout_at given.now) at name.now object.now) }
{
    if !object.is_place {
        return Ok(Answer::Breaks { rule: 12, at });
    }
    let answer = member_by(given, at, name, object)?;
    Ok(answer)
}

/// The struct that a pointer leads to.
#[tactic(auto, using(crate::proofs::Cells::any_room))]
fn pointed_struct(given: &Given, p: &Typed, leads: bool) -> Result<Typed, NoMemory>
    requires counted { IsCounted (layout_at given.now) }
    requires leads { LeadsBy (layout_at given.now) (types.inner p.now.ctype) p.now.fixed leads }
    ensures value { IfOk result (λ made. made ≡ spec.pointed_struct (layout_at given.now) p.now) }
    ensures room { IfOk result (λ made. HasItsCells (layout_at given.now) made) }
{
    let ctype = inner_copy(given.alloc, &p.ctype)?;
    let place = followed(p.fixed, leads);
    Ok(place_typed(ctype, place, p.fixed, p.named_at, p.ends_at))
}

/// `pointer->name`, of a value. The name is the token after the `->`. If the pointer leads into a static object, `leads`
/// is whether there are the cells of what it points to.
#[tactic(auto, using(crate::proofs::PlaceRooms::member_kept))]
pub fn pointed_member(
    given: &Given,
    at: usize,
    name: &[u8],
    p: &Typed,
    leads: bool,
) -> Result<Answer, NoMemory>
    requires token { at + 1 < 2 ^ 64 }
    requires counted { IsCounted (layout_at given.now) }
    requires leads { LeadsBy (layout_at given.now) (types.inner p.now.ctype) p.now.fixed leads }
    ensures value { IfOk result (λ answer. answer ≡ spec.pointed_member_answer (layout_at given.now) at name.now p.now) }
    ensures room { IfOk result (λ answer. GivesItsCells (layout_at given.now) answer) }
{
    if !is_pointer(&p.ctype) {
        return Ok(Answer::Breaks { rule: 12, at });
    }
    let object = pointed_struct(given, p, leads)?;
    let answer = member_by(given, at, name, &object)?;
    Ok(answer)
}
