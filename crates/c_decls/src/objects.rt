//! Declarations of objects (C11 6.7, 6.9.2).

ghost use Rattle.std.specs.Prelude.{◌≡◌, ◌&&◌, IfOk, OnOk};
ghost use Rattle.c_rules.specs.declared.names.Declares.TheVariants.{Object as OfObject};
ghost use Rattle.c_rules.specs.Declarations as spec;
ghost use Rattle.c_rules.specs.Declarators.{holds};
ghost use Rattle.c_kinds.specs.Types.{is_void};
ghost use Rattle.c_decls.specs.Parts.{how};

use crate::built::How;
use crate::holds::{holds_incomplete, holds_void, may_be_same};
use crate::typedefs::copy_declares;
use c_kinds::CType;
use c_rules::{Declares, Meaning, Object};
use c_scopes::State;
use c_tags::copy_of;
use kv_base::{Bytes, Copied, NoMemory};

/// Whether a declaration defines its object.
fn is_defining(manner: How) -> bool
    ensures { result ≡ spec.is_defining (how manner) }
{
    !manner.is_extern || manner.is_initialised
}

/// Whether the object lives as long as the program (6.2.4p3).
fn is_static_object(manner: How, at_file: bool) -> bool
    ensures { result ≡ spec.is_static_object (how manner) at_file }
{
    at_file || (manner.is_static || manner.is_extern)
}

/// Whether the object is of a struct that isn't complete, and isn't only declared.
fn lacks_cells(st: &State, manner: How, at: usize, ctype: &Option<CType>) -> bool
    ensures { result ≡ spec.lacks_cells st.now (how manner) at ctype.now }
{
    is_defining(manner) && holds_incomplete(st.names().structs.as_slice(), at, ctype)
}

/// An object that isn't declared yet.
fn new_object(st: &State, name: &Bytes, manner: How, ctype: Option<CType>, at_file: bool) -> Object
    ensures { result ≡ spec.new_object name.now (how manner) ctype at_file st.now }
{
    Object {
        ctype,
        is_static: is_static_object(manner, at_file),
        function: st.function(),
        is_defined: is_defining(manner) || st.is_defined(name.as_slice()),
        is_initialised: manner.is_initialised,
    }
}

/// A name is declared as a new object.
fn declares_new(
    st: &mut State,
    name: &Bytes,
    manner: How,
    ctype: Option<CType>,
    at: usize,
    at_file: bool,
) -> Result<(), NoMemory>
    ensures { OnOk result (st.new ≡ spec.declares_new name.now (how manner) ctype at at_file st.old) }
{
    let number = st.names().objects.len();
    let object = new_object(st, name, manner, ctype, at_file);
    st.add_object(object)?;
    st.mean(at, Meaning::Object { number })?;
    let name = name.copy(st.alloc())?;
    st.declare(name, Declares::Object { number })
}

/// What an object is after a further declaration.
fn defined_further(st: &State, manner: How, object: &Object) -> Result<Object, NoMemory>
    ensures { IfOk result (λ made. made ≡ spec.defined_further (how manner) object.now) }
{
    let ctype = copy_of(st, &object.ctype)?;
    Ok(Object {
        ctype,
        is_static: object.is_static,
        function: object.function,
        is_defined: object.is_defined || is_defining(manner),
        is_initialised: object.is_initialised || manner.is_initialised,
    })
}

/// Whether a further declaration of an object has another type, or a second initialiser.
fn object_clashes(manner: How, ctype: &Option<CType>, object: &Object) -> bool
    ensures { result ≡ spec.object_clashes (how manner) ctype.now object.now }
{
    !may_be_same(ctype, &object.ctype) || (object.is_initialised && manner.is_initialised)
}

/// A further declaration of the object of this number (6.2.2, 6.2.7).
fn object_numbered(
    st: &mut State,
    manner: How,
    ctype: &Option<CType>,
    at: usize,
    number: usize,
) -> Result<(), NoMemory>
    ensures { OnOk result (st.new ≡ spec.object_again (how manner) ctype.now at (OfObject number) st.old) }
{
    let Some(object) = st.names().objects.get(number) else {
        return Ok(());
    };
    let clashes = object_clashes(manner, ctype, object);
    let further = defined_further(st, manner, object)?;
    st.note_if(clashes, at, 4)?;
    st.mean(at, Meaning::Object { number })?;
    st.change_object(number, further);
    Ok(())
}

/// An object's name that is declared already.
fn object_again(
    st: &mut State,
    manner: How,
    ctype: &Option<CType>,
    at: usize,
    declares: &Declares,
) -> Result<(), NoMemory>
    ensures { OnOk result (st.new ≡ spec.object_again (how manner) ctype.now at declares.now st.old) }
{
    match declares {
        Declares::Object { number } => object_numbered(st, manner, ctype, at, *number),
        _ => st.note(at, 4),
    }
}

/// An object with linkage that isn't declared in the innermost block (6.2.2p3, p4).
fn object_linked(
    st: &mut State,
    name: &Bytes,
    manner: How,
    ctype: Option<CType>,
    at: usize,
    at_file: bool,
) -> Result<(), NoMemory>
    ensures { OnOk result (st.new ≡ spec.object_linked name.now (how manner) ctype at at_file st.old) }
{
    match st.find_linked(name.as_slice()) {
        Some(entry) => {
            let declares = copy_declares(st, &entry.declares)?;
            object_again(st, manner, &ctype, at, &declares)?;
            let name = name.copy(st.alloc())?;
            st.declare(name, declares)
        }
        None => {
            let number = st.names().objects.len();
            declares_new(st, name, manner, ctype, at, at_file)?;
            let name = name.copy(st.alloc())?;
            st.link(name, Declares::Object { number })
        }
    }
}

/// An object that isn't declared in the innermost block.
fn object_outside(
    st: &mut State,
    name: &Bytes,
    manner: How,
    ctype: Option<CType>,
    at: usize,
    at_file: bool,
) -> Result<(), NoMemory>
    ensures { OnOk result (st.new ≡ spec.object_outside name.now (how manner) ctype at at_file st.old) }
{
    if at_file || manner.is_extern {
        object_linked(st, name, manner, ctype, at, at_file)
    } else {
        declares_new(st, name, manner, ctype, at, at_file)
    }
}

/// Whether what a name is declared as here is the object with linkage of this name.
fn is_linked(st: &State, name: &Bytes, declares: &Declares) -> bool
    ensures { result ≡ spec.is_linked name.now declares.now st.now }
{
    match declares {
        Declares::Object { number } => is_linked_object(st, name, *number),
        _ => false,
    }
}

/// Whether the object of this number has linkage by this name.
fn is_linked_object(st: &State, name: &Bytes, number: usize) -> bool
    ensures { result ≡ spec.is_linked name.now (OfObject number) st.now }
{
    match st.find_linked(name.as_slice()) {
        Some(entry) => match &entry.declares {
            Declares::Object { number: linked } => *linked == number,
            _ => false,
        },
        None => false,
    }
}

/// An object's name that is declared in the innermost block. In a block only `extern` declarations of one object may stand
/// together (6.7p3).
fn object_here(
    st: &mut State,
    name: &Bytes,
    manner: How,
    ctype: &Option<CType>,
    at: usize,
    at_file: bool,
    declares: &Declares,
) -> Result<(), NoMemory>
    ensures { OnOk result (st.new ≡ spec.object_here name.now (how manner) ctype.now at at_file declares.now st.old) }
{
    if at_file || (manner.is_extern && is_linked(st, name, declares)) {
        object_again(st, manner, ctype, at, declares)
    } else {
        st.note(at, 4)
    }
}

/// The type, unless it is `void`.
fn without_void(ctype: Option<CType>) -> Option<CType>
    ensures { result ≡ spec.without_void ctype }
{
    if holds_void(&ctype) {
        return None;
    }
    ctype
}

/// A name of an object.
pub fn declares_object(
    st: &mut State,
    name: &Bytes,
    at: usize,
    manner: How,
    ctype: Option<CType>,
) -> Result<(), NoMemory>
    ensures { OnOk result (st.new ≡ spec.declares_object name.now at (how manner) ctype st.old) }
{
    let at_file = st.is_at_file();
    let lacks = lacks_cells(st, manner, at, &ctype);
    st.note_if(lacks, at, 10)?;
    st.note_if(holds_void(&ctype), manner.first, 24)?;
    st.define_if(at_file && is_defining(manner), name)?;
    let ctype = without_void(ctype);
    match st.find_here(name.as_slice()) {
        Some(entry) => {
            let declares = copy_declares(st, &entry.declares)?;
            object_here(st, name, manner, &ctype, at, at_file, &declares)
        }
        None => object_outside(st, name, manner, ctype, at, at_file),
    }
}
