//! Tags and typedef names that are named (C11 6.7.2.3, 6.7.8).

ghost use Rattle.std.specs.Prelude.{◌≡◌, IfOk, OnOk};
ghost use Rattle.c_rules.specs.Scopes as scope;
ghost use Rattle.c_rules.specs.Specifiers.{with_other};
ghost use Rattle.c_rules.specs.Tags as spec;
ghost use Rattle.c_tags.specs.Parts.{specified};

use crate::Specified;
use crate::structs::note_next;
use c_arithmetic::{integer, plain};
use c_kinds::{Base, CType};
use c_rules::Declares;
use c_scopes::State;
use kv_base::{Bytes, Copied, NoMemory};
use kv_num::IntType;

/// A tag, the next token, that isn't declared, or for the other keyword.
fn tag_unknown(x: &mut Specified, st: &mut State, at: usize) -> Result<(), NoMemory>
    ensures { OnOk result (specified st.new x.new ≡ spec.tag_unknown at (specified st.old x.old)) }
{
    note_next(st, at, 3)?;
    x.add_other(None)
}

/// The struct of this number is named.
fn add_struct(x: &mut Specified, st: &State, number: usize) -> Result<(), NoMemory>
    ensures { OnOk result (specified st.now x.new ≡ with_other (spec.struct_type number) (specified st.now x.old)) }
{
    x.add_other(Some(plain(st.alloc(), Base::Struct { number })))
}

/// `struct tag`, where the tag, the next token, names a struct.
fn struct_named(x: &mut Specified, st: &mut State, tag: &Bytes, at: usize) -> Result<(), NoMemory>
    ensures { OnOk result (specified st.new x.new ≡ spec.struct_named at (scope.find st.old.tags tag.now) (specified st.old x.old)) }
{
    match st.find_tag(tag.as_slice()) {
        Some(entry) => match &entry.declares {
            Declares::Struct { number } => {
                let number = *number;
                add_struct(x, st, number)
            }
            _ => tag_unknown(x, st, at),
        },
        None => tag_unknown(x, st, at),
    }
}

/// `struct tag;` alone, which declares the tag, the next token, in the innermost block (6.7.2.3p7).
fn struct_declared(
    x: &mut Specified,
    st: &mut State,
    tag: &Bytes,
    at: usize,
) -> Result<(), NoMemory>
    ensures { OnOk result (specified st.new x.new ≡ spec.struct_declared tag.now at (scope.find_here st.old.tags tag.now) (specified st.old x.old)) }
{
    match st.find_tag_here(tag.as_slice()) {
        Some(entry) => match &entry.declares {
            Declares::Struct { number } => {
                let number = *number;
                add_struct(x, st, number)
            }
            _ => {
                note_next(st, at, 4)?;
                x.add_other(None)
            }
        },
        None => {
            let tag = tag.copy(st.alloc())?;
            let number = st.new_struct(Some(tag))?;
            add_struct(x, st, number)
        }
    }
}

/// `struct tag`, as a whole declaration or not.
pub fn struct_tag(
    x: &mut Specified,
    st: &mut State,
    is_alone: bool,
    tag: &Bytes,
    at: usize,
) -> Result<(), NoMemory>
    ensures { OnOk result (specified st.new x.new ≡ spec.struct_tag is_alone tag.now at (specified st.old x.old)) }
{
    if is_alone {
        struct_declared(x, st, tag, at)
    } else {
        struct_named(x, st, tag, at)
    }
}

/// `enum tag`, which is an `int` (6.7.2.2p4).
pub fn enum_named(x: &mut Specified, st: &mut State, tag: &Bytes, at: usize) -> Result<(), NoMemory>
    ensures { OnOk result (specified st.new x.new ≡ spec.enum_named at (scope.find st.old.tags tag.now) (specified st.old x.old)) }
{
    match st.find_tag(tag.as_slice()) {
        Some(entry) => match &entry.declares {
            Declares::Enum => x.add_other(Some(integer(st.alloc(), IntType::Int))),
            _ => tag_unknown(x, st, at),
        },
        None => tag_unknown(x, st, at),
    }
}

/// A typedef name (6.7.8).
pub fn typedef_named(x: &mut Specified, st: &State, name: &Bytes) -> Result<(), NoMemory>
    ensures { OnOk result (specified st.now x.new ≡ spec.typedef_named (scope.find st.now.ordinary name.now) (specified st.now x.old)) }
{
    match st.find(name.as_slice()) {
        Some(entry) => typedef_by(x, st, &entry.declares),
        None => x.add_other(None),
    }
}

/// A typedef name that is declared so.
fn typedef_by(x: &mut Specified, st: &State, declares: &Declares) -> Result<(), NoMemory>
    ensures { OnOk result (specified st.now x.new ≡ spec.typedef_by declares.now (specified st.now x.old)) }
{
    match declares {
        Declares::Typedef { ctype, is_unsaid } => {
            let copy = copy_of(st, ctype)?;
            x.is_unsaid = *is_unsaid;
            x.add_other(copy)
        }
        _ => x.add_other(None),
    }
}

/// A copy of a type, if there is one.
pub fn copy_of(st: &State, ctype: &Option<CType>) -> Result<Option<CType>, NoMemory>
    ensures { IfOk result (λ made. made ≡ ctype.now) }
{
    match ctype {
        Some(ctype) => Ok(Some(ctype.copy(st.alloc())?)),
        None => Ok(None),
    }
}
