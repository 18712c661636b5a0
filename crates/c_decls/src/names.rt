//! What one declared name declares (C11 6.7, 6.9).

ghost use Rattle.std.specs.Prelude.{◌≡◌, ◌||◌, not, IfOk, OnOk};
ghost use Rattle.std.specs.Option.{option_copied};
ghost use Rattle.c_rules.specs.Declarations as spec;
ghost use Rattle.c_rules.specs.Declarators as declarator;
ghost use Rattle.c_rules.specs.Scopes as scope;
ghost use Rattle.c_kinds.specs.Types.{is_function};
ghost use Rattle.c_rules.specs.Calls.{is_some};
ghost use Rattle.c_decls.specs.Parts.{built, how};

use crate::built::{Built, How};
use crate::functions::declares_function;
use crate::holds::{holds_function, signature_number_of};
use crate::objects::declares_object;
use crate::typedefs::declares_typedef;
use c_arithmetic::{integer, same, shape_of};
use c_kinds::{CType, Shape, Signature};
use c_rules::Pairs;
use c_scopes::State;
use c_tags::is_known;
use kv_base::{Bytes, Copied, NoMemory, Sequence};
use kv_num::IntType;
use std::alloc::Global;
use std::mem;

/// Whether a name is `main`.
fn is_main(name: &[u8]) -> bool
    ensures { result ≡ spec.is_main name.now }
{
    name == b"main".as_slice()
}

/// Whether `main` may have this signature: no parameters, and an `int` (5.1.2.2.1p1).
fn is_main_signature(alloc: Global, signature: Option<&Signature>) -> bool
    ensures { result ≡ spec.is_main_signature (option_copied signature.entry) }
{
    match signature {
        Some(signature) => {
            same(&signature.result, &integer(alloc, IntType::Int))
                && (signature.parameters.len() == 0 && !signature.is_variadic)
        }
        None => true,
    }
}

/// Whether `main` may have this type.
fn is_main_type(st: &State, ctype: &CType) -> bool
    ensures { result ≡ spec.is_main_type st.now ctype.now }
{
    match shape_of(ctype) {
        Shape::Function { number } => {
            is_main_signature(st.alloc(), st.names().signatures.get(number))
        }
        _ => false,
    }
}

/// Whether there is a type, and `main` can't have it.
fn holds_other_main(st: &State, ctype: &Option<CType>) -> bool
    ensures { result ≡ declarator.holds (λ u. not (spec.is_main_type st.now u)) ctype.now }
{
    match ctype {
        Some(ctype) => !is_main_type(st, ctype),
        None => false,
    }
}

/// Whether `main` is declared in the file, or a function `main` in a block, with another type.
fn is_other_main(st: &State, name: &Bytes, manner: How, ctype: &Option<CType>) -> bool
    ensures { result ≡ spec.is_other_main name.now (how manner) ctype.now st.now }
{
    is_main(name.as_slice())
        && (!manner.is_typedef
            && ((st.is_at_file() || holds_function(ctype)) && holds_other_main(st, ctype)))
}

/// Whether a name is declared as a function, also where its type isn't known.
fn declares_a_function(b: &Built) -> bool
    ensures { result ≡ (declarator.holds is_function b.now.ctype || is_some b.now.parameters) }
{
    if holds_function(&b.ctype) {
        return true;
    }
    match &b.parameters {
        Some(_) => true,
        None => false,
    }
}

/// A known function's name that is declared as an object with linkage.
fn misnames(st: &mut State, name: &Bytes, at: usize, manner: How) -> Result<(), NoMemory>
    ensures { OnOk result (st.new ≡ spec.misnames name.now at (how manner) st.old) }
{
    let broken = is_known(st, name.as_slice()) && (st.is_at_file() || manner.is_extern);
    st.note_if(broken, at, 23)
}

/// What the pointers and parameters of a declarator break: all in a definition, nothing in another declaration of a function.
/// The declarator has none of them any more.
fn forgiven(st: &State, manner: How, b: &mut Built) -> Result<Pairs, NoMemory>
    ensures pairs { IfOk result (λ pairs. pairs ≡ spec.forgiven (how manner) (built st.now b.old)) }
    ensures name { OnOk result (b.new.name ≡ b.old.name) }
    ensures at { OnOk result (b.new.at ≡ b.old.at) }
    ensures ctype { OnOk result (b.new.ctype ≡ b.old.ctype) }
    ensures parameters { OnOk result (b.new.parameters ≡ b.old.parameters) }
{
    let alloc = st.alloc();
    let mut pointers = mem::replace(&mut b.pointers, Sequence::new(alloc));
    if manner.has_body {
        let in_definition = mem::replace(&mut b.in_definition, Sequence::new(alloc));
        pointers.append(in_definition)?;
        return Ok(pointers);
    }
    if declares_a_function(b) && !manner.is_typedef {
        return Ok(Sequence::new(alloc));
    }
    Ok(pointers)
}

/// A typedef name is given no value and no body.
fn declares_by_typedef(
    st: &mut State,
    name: &Bytes,
    manner: How,
    is_unsaid: bool,
    at: usize,
    ctype: Option<CType>,
) -> Result<(), NoMemory>
    ensures { OnOk result (st.new ≡ scope.note_if (manner.is_initialised || manner.has_body) manner.first 24 (spec.declares_typedef name.now at is_unsaid ctype st.old)) }
{
    declares_typedef(st, name, at, is_unsaid, ctype)?;
    st.note_if(manner.is_initialised || manner.has_body, manner.first, 24)
}

/// An object is given no body.
fn declares_by_object(
    st: &mut State,
    name: &Bytes,
    manner: How,
    at: usize,
    ctype: Option<CType>,
) -> Result<(), NoMemory>
    ensures { OnOk result (st.new ≡ scope.note_if manner.has_body manner.first 24 (spec.declares_object name.now at (how manner) ctype (spec.misnames name.now at (how manner) st.old))) }
{
    misnames(st, name, at, manner)?;
    declares_object(st, name, at, manner, ctype)?;
    st.note_if(manner.has_body, manner.first, 24)
}

/// A name with its declarator's type. `first` is the number of a first parameter.
fn declares_by(
    st: &mut State,
    name: &Bytes,
    manner: How,
    is_unsaid: bool,
    first: usize,
    b: &mut Built,
) -> Result<(), NoMemory>
    ensures state { OnOk result (st.new ≡ spec.declares_by name.now (how manner) is_unsaid first (built st.old b.old) st.old) }
    ensures name { OnOk result (b.new.name ≡ b.old.name) }
    ensures parameters { OnOk result (b.new.parameters ≡ b.old.parameters) }
{
    let is_function = declares_a_function(b);
    let at = b.at;
    let ctype = mem::replace(&mut b.ctype, None);
    if manner.is_typedef {
        return declares_by_typedef(st, name, manner, is_unsaid, at, ctype);
    }
    if is_function {
        let signature = signature_number_of(&ctype);
        return declares_function(st, name, at, manner, is_unsaid, first, signature);
    }
    declares_by_object(st, name, manner, at, ctype)
}

/// A name is declared from the end of its declarator on (6.2.1p7). `first` is the number of a first parameter. The declarator
/// keeps its name and what its parameters declare.
pub fn declares_name(
    st: &mut State,
    manner: How,
    is_unsaid: bool,
    first: usize,
    b: &mut Built,
) -> Result<(), NoMemory>
    ensures state { OnOk result (st.new ≡ spec.declares_name (how manner) is_unsaid first (built st.old b.old)) }
    ensures name { OnOk result (b.new.name ≡ b.old.name) }
    ensures parameters { OnOk result (b.new.parameters ≡ b.old.parameters) }
{
    let alloc = st.alloc();
    let name = match &b.name {
        Some(name) => name.copy(alloc)?,
        None => return Ok(()),
    };
    let other_main = is_other_main(st, &name, manner, &b.ctype);
    let pairs = forgiven(st, manner, b)?;
    st.note_all(pairs)?;
    st.note_if(other_main, b.at, 2)?;
    declares_by(st, &name, manner, is_unsaid, first, b)
}
