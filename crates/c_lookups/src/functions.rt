//! Functions: what a call calls, parameters and results (C11 6.5.2.2, 6.9.1).

ghost use Rattle.std.specs.Prelude.{◌≡◌};
ghost use Rattle.std.specs.Option.{option_copied};
ghost use Rattle.c_kinds.specs.Types as types;
ghost use Rattle.c_model.specs.Functions as spec;
ghost use Rattle.c_lookups.specs.Calls.{meant, parameters};

use c_arithmetic::shape_of;
use c_kinds::{Shape, Signature};
use c_model::Program;
use c_rules::{Function, KnownFunction, Meaning};

/// What a call calls.
#[derive(Clone, Copy, Debug, Drop, PartialEq, Eq)]
pub enum Callee {
    /// A function with a body, by its number.
    Defined { function: usize },
    Known { function: KnownFunction },
    /// No accepted program calls anything else.
    Neither,
}

/// The parameters of a function: the objects with these numbers.
#[derive(Clone, Copy, Debug, Drop, PartialEq, Eq)]
pub struct Parameters {
    pub first: usize,
    pub count: usize,
}

/// What a function that is only declared is: a known one, or none that an accepted program calls.
fn known_or_neither(known: Option<KnownFunction>) -> Callee
    ensures { meant result ≡ spec.known_or_neither known }
{
    match known {
        Some(function) => Callee::Known { function },
        None => Callee::Neither,
    }
}

/// What a call of a function's name calls: its body comes before what is known of its name.
fn called_by(number: usize, found: Option<&Function>) -> Callee
    ensures { meant result ≡ spec.called_by number (option_copied found.entry) }
{
    match found {
        None => Callee::Neither,
        Some(function) => {
            if function.is_defined {
                return Callee::Defined { function: number };
            }
            known_or_neither(function.known)
        }
    }
}

/// The function whose name is called (C11 6.5.2.2p1).
pub fn called(program: &Program, meaning: Option<&Meaning>) -> Callee
    ensures { meant result ≡ spec.called program.now (option_copied meaning.entry) }
{
    match meaning {
        Some(Meaning::Function { number }) => {
            called_by(*number, program.names.functions.get(*number))
        }
        Some(Meaning::Known { function }) => Callee::Known {
            function: *function,
        },
        _ => Callee::Neither,
    }
}

/// The signature of a function, if it has one (C11 6.7.6.3).
fn signature_in<'p>(program: &'p Program, found: Option<&Function>) -> Option<&'p Signature>
    ensures { option_copied result ≡ spec.signature_in program.now (option_copied found.entry) }
{
    match found {
        None => None,
        Some(function) => match function.signature {
            Some(number) => program.names.signatures.get(number),
            None => None,
        },
    }
}

/// The outermost part of the type of what a function gives, `void` where nothing says it.
#[tactic(auto, using(crate::proofs::Results::same_shape))]
pub fn result_shape(program: &Program, number: usize) -> Shape
    ensures { result ≡ types.shape_of (spec.result_of program.now number) }
{
    match signature_in(program, program.names.functions.get(number)) {
        Some(signature) => shape_of(&signature.result),
        None => Shape::Void,
    }
}

/// The parameters of a function, which are declared one after another (C11 6.9.1p5).
pub fn parameters_of(program: &Program, number: usize) -> Parameters
    ensures { parameters result ≡ spec.parameters_of program.now number }
{
    let found = program.names.functions.get(number);
    match (found, signature_in(program, found)) {
        (Some(function), Some(signature)) => Parameters {
            first: function.first,
            count: signature.parameters.len(),
        },
        _ => Parameters { first: 0, count: 0 },
    }
}
