//! How names are declared, and definitions of functions (C11 6.7, 6.9).

ghost use Rattle.std.specs.Prelude.{◌≡◌, ◌||◌, ◌&&◌, OnOk};
ghost use Rattle.std.specs.Option.{option_copied};
ghost use Rattle.c_kinds.specs.Layouts as layout;
ghost use Rattle.c_rules.specs.Declarations as declaration;
ghost use Rattle.c_rules.specs.Declarators as declarator;
ghost use Rattle.c_rules.specs.Scopes.{State as Known};
ghost use Rattle.c_rules.specs.Texts as spec;
ghost use Rattle.c_tags.specs.Parts.{specified};
ghost use Rattle.c_decls.specs.Parts.{built, how};

use crate::built::{Built, How};
use crate::declarators::is_direct;
use crate::holds::signature_number_of;
use c_arithmetic::is_incomplete;
use c_kinds::{CType, Signature};
use c_rules::Function;
use c_scopes::{State, function_declared};
use c_tags::Specified;
use c_tree::Declarator;
use kv_base::NoMemory;

/// How the names behind specifiers are declared, of which the first is this token.
pub fn how_of(x: &Specified, first: usize, is_initialised: bool, has_body: bool) -> How
    ensures { (st : Known) → how result ≡ spec.how_of (specified st x.now) first is_initialised has_body }
{
    How {
        is_typedef: x.is_typedef,
        is_extern: !x.is_typedef && x.is_extern,
        is_static: !x.is_typedef && (!x.is_extern && x.is_static),
        is_initialised,
        has_body,
        first,
    }
}

/// Whether a declarator itself makes its name a function with `()`.
fn is_unsaid(x: &Declarator) -> bool
    ensures { result ≡ declaration.is_unsaid x.now }
{
    match x {
        Declarator::Function {
            inner,
            parameters,
            ..
        } => is_direct(inner.get()) && parameters.len() == 0,
        _ => false,
    }
}

/// Whether a name is declared with `()`: that of its declarator, or of the typedef name of which it is.
pub fn leaves_unsaid(x: &Specified, inside: &Declarator) -> bool
    ensures { result ≡ (declaration.is_unsaid inside.now || (declarator.is_direct inside.now && x.now.is_unsaid)) }
{
    is_unsaid(inside) || (is_direct(inside) && x.is_unsaid)
}

/// What a function of this signature gives.
fn result_by(signature: Option<&Signature>) -> Option<&CType>
    ensures { option_copied result ≡ spec.result_by (option_copied signature.entry) }
{
    match signature {
        Some(signature) => Some(&signature.result),
        None => None,
    }
}

/// What a function with the signature of this number gives.
fn result_of(st: &State, number: Option<usize>) -> Option<&CType>
    ensures { option_copied result ≡ spec.result_of st.now number }
{
    match number {
        Some(number) => result_by(st.names().signatures.get(number)),
        None => None,
    }
}

/// Whether a function of this type gives a struct that isn't complete at a token.
fn lacks_result(st: &State, at: usize, ctype: &Option<CType>) -> bool
    ensures { result ≡ declarator.holds (layout.is_incomplete st.now.names.structs at) (spec.result_of st.now (declaration.signature_number_of ctype.now)) }
{
    match result_of(st, signature_number_of(ctype)) {
        Some(gives) => is_incomplete(st.names().structs.as_slice(), at, gives),
        None => false,
    }
}

/// A function with a body has a declarator that itself makes its name a function (6.9.1p2), no `...`, and a result with cells.
pub fn definition_pairs(st: &mut State, first: usize, b: &Built) -> Result<(), NoMemory>
    ensures { OnOk result (st.new ≡ spec.definition_pairs first (built st.old b.now) st.old) }
{
    let lacks = lacks_result(st, b.at, &b.ctype);
    st.note_if(lacks, b.at, 10)?;
    match b.dots {
        Some(at) => st.note(at, 11)?,
        None => {}
    }
    match &b.parameters {
        Some(_) => Ok(()),
        None => st.note(first, 24),
    }
}

/// Whether a function has a body.
fn function_is_defined(function: Option<&Function>) -> bool
    ensures { result ≡ spec.function_is_defined (option_copied function.entry) }
{
    match function {
        Some(function) => function.is_defined,
        None => false,
    }
}

/// Whether the function of this number has a body.
fn number_is_defined(st: &State, number: Option<usize>) -> bool
    ensures { result ≡ spec.number_is_defined st.now number }
{
    match number {
        Some(number) => function_is_defined(st.names().functions.get(number)),
        None => false,
    }
}

/// Whether a function `main` with a body has linkage (5.1.2.2.1).
fn main_is_defined(st: &State) -> bool
    ensures { result ≡ spec.main_is_defined st.now }
{
    number_is_defined(st, function_declared(st.find_linked(b"main")))
}

/// A text ends before this token. It has a `main` with a body.
pub fn ends_text(st: &mut State, end: usize) -> Result<(), NoMemory>
    ensures { OnOk result (st.new ≡ spec.with_main end st.old) }
{
    let is_defined = main_is_defined(st);
    st.note_if(!is_defined, end, 1)
}
