//! Parameters (C11 6.7.6.3).

ghost use Rattle.std.specs.Prelude.{◌≡◌, [], ◌∷◌, ◌++◌, ◌&&◌, not, IfOk, OnOk};
ghost use Rattle.c_rules.specs.Calls.{is_some};
ghost use Rattle.c_kinds.specs.Types.{is_void, unqualified};
ghost use Rattle.c_rules.specs.Declarators as spec;
ghost use Rattle.c_rules.specs.Scopes as scope;
ghost use Rattle.c_decls.specs.Parts.{built, parameter, site};

use crate::built::{Built, Listed, ParameterBuilt, Site};
use crate::declarators::{named_at, pair_if};
use crate::holds::{holds_function, holds_incomplete, holds_plain_void, holds_rows, holds_void};
use c_arithmetic::{inner, pointer_to, shape_of, unqualified};
use c_kinds::{CType, ParameterTypes, Shape};
use c_rules::{Object, Pairs};
use c_scopes::State;
use c_tags::copy_of;
use kv_base::{Bytes, Copied, NoMemory, Sequence};
use std::alloc::Global;

/// The type of a parameter: an array means a pointer to its element, a function a pointer to it (6.7.6.3p7, p8).
fn adjusted(ctype: CType) -> Result<CType, NoMemory>
    ensures { IfOk result (λ made. made ≡ spec.adjusted ctype) }
{
    match shape_of(&ctype) {
        Shape::Array { .. } => {
            let made = pointer_to(inner(ctype))?;
            Ok(made)
        }
        Shape::Function { .. } => {
            let made = pointer_to(ctype)?;
            Ok(made)
        }
        _ => Ok(ctype),
    }
}

/// The same, if there is a type.
fn adjusted_if(ctype: Option<CType>) -> Result<Option<CType>, NoMemory>
    ensures { IfOk result (λ made. made ≡ spec.map_type spec.adjusted ctype) }
{
    match ctype {
        Some(ctype) => {
            let made = adjusted(ctype)?;
            Ok(Some(made))
        }
        None => Ok(None),
    }
}

/// The type without qualifiers of its own, if there is one.
fn unqualified_if(ctype: Option<CType>) -> Option<CType>
    ensures { result ≡ spec.map_type unqualified ctype }
{
    match ctype {
        Some(ctype) => Some(unqualified(ctype)),
        None => None,
    }
}

/// What a parameter breaks in a definition: a function, an array of arrays, a struct that isn't complete.
fn faults_in_definition(st: &State, place: Site, b: &Built) -> Result<Pairs, NoMemory>
    ensures { IfOk result (λ pairs. pairs ≡ spec.faults_in_definition st.now (site place) (built st.now b.now)) }
{
    let alloc = st.alloc();
    let at = named_at(place, b);
    let is_incomplete = holds_incomplete(st.names().structs.as_slice(), at, &b.ctype);
    let incomplete = pair_if(alloc, is_incomplete, at, 10)?;
    let mut rows = pair_if(alloc, holds_rows(&b.ctype), at, 9)?;
    rows.append(incomplete)?;
    let mut pairs = pair_if(alloc, holds_function(&b.ctype), place.first, 24)?;
    pairs.append(rows)?;
    Ok(pairs)
}

/// The object of a parameter.
fn parameter_object(ctype: Option<CType>) -> Object
    ensures { result ≡ spec.parameter_object ctype }
{
    Object {
        ctype,
        is_static: false,
        function: None,
        is_defined: true,
        is_initialised: false,
    }
}

/// A parameter is declared from the end of its declarator on (6.2.1p7), if it has a name.
fn declares_parameter(
    st: &mut State,
    name: Option<Bytes>,
    at: usize,
    number: usize,
) -> Result<(), NoMemory>
    ensures { OnOk result (st.new ≡ spec.declares_parameter name at number st.old) }
{
    match name {
        Some(name) => st.declare_parameter(name, at, number),
        None => Ok(()),
    }
}

/// Whether a parameter has no name, and the type `void` without qualifiers.
fn is_nothing(b: &Built) -> bool
    ensures { result ≡ (spec.holds spec.is_plain_void b.now.ctype && not (is_some b.now.name)) }
{
    match &b.name {
        Some(_) => false,
        None => holds_plain_void(&b.ctype),
    }
}

/// A parameter with its declarator.
pub fn parameter_built(st: &mut State, place: Site, b: Built) -> Result<ParameterBuilt, NoMemory>
    ensures { IfOk result (λ made. parameter st.new made ≡ spec.parameter_built (site place) (built st.old b)) }
{
    let faults = faults_in_definition(st, place, &b)?;
    let is_nothing = is_nothing(&b);
    let Built {
        ctype,
        name,
        at,
        pointers,
        mut in_definition,
        ..
    } = b;
    in_definition.append(faults)?;
    let number = st.names().objects.len();
    let ctype = adjusted_if(ctype)?;
    let object = parameter_object(copy_of(st, &ctype)?);
    st.add_object(object)?;
    declares_parameter(st, name, at, number)?;
    Ok(ParameterBuilt {
        ctype: unqualified_if(ctype),
        pointers,
        in_definition,
        first: place.first,
        is_nothing,
    })
}

impl Listed {
    /// No parameters. It takes no memory.
    pub fn new(alloc: Global) -> Listed
        ensures { result ≡ record { types = []; pointers = []; in_definition = [] } }
    {
        Listed {
            types: Sequence::new(alloc),
            pointers: Sequence::new(alloc),
            in_definition: Sequence::new(alloc),
        }
    }

    /// One more parameter, which isn't of type `void` (6.7.6.3p4).
    pub fn add(&mut self, st: &mut State, p: ParameterBuilt) -> Result<(), NoMemory>
        ensures state { OnOk result (st.new ≡ scope.note_if (spec.holds is_void p.ctype) p.first 24 st.old) }
        ensures list { OnOk result (self.new ≡ record { types = self.old.types ++ p.ctype ∷ []; pointers = self.old.pointers ++ p.pointers; in_definition = self.old.in_definition ++ p.in_definition }) }
    {
        st.note_if(holds_void(&p.ctype), p.first, 24)?;
        let ParameterBuilt {
            ctype,
            pointers,
            in_definition,
            ..
        } = p;
        self.types.push(ctype)?;
        self.pointers.append(pointers)?;
        self.in_definition.append(in_definition)?;
        Ok(())
    }
}

/// The types of parameters, if all are known.
#[tactic(auto, using(crate::proofs::Types::prepended_more, crate::proofs::Types::prepended_none, crate::proofs::Types::prepended_all))]
pub fn all_types(
    alloc: Global,
    ctypes: &[Option<CType>],
) -> Result<Option<ParameterTypes>, NoMemory>
    ensures { IfOk result (λ types. types ≡ spec.all_types ctypes.now) }
{
    let mut types = Sequence::new(alloc);
    for ctype in ctypes {
        match ctype {
            Some(ctype) => types.push(ctype.copy(alloc)?)?,
            None => return Ok(None),
        }
    }
    Ok(Some(types))
}
