//! Declared objects.

ghost use Rattle.std.specs.Prelude.{◌≡◌};
ghost use Rattle.std.specs.Option.{option_copied};
ghost use Rattle.c_rules.specs.Initialisers.{name_at};
ghost use Rattle.c_model.specs.Programs as spec;
ghost use Rattle.c_lookups.specs.Names.{name_within};
ghost use Rattle.c_lookups.specs.Types.{seen};
ghost use Rattle.c_tree.specs.declared.expression.Declarator.{out-Declarator};

use crate::tokens::meaning_at;
use crate::types::{TypeView, or_void};
use c_model::Program;
use c_rules::Meaning;
use c_tree::{Declarator, Declared};

/// The type that a declared object's declaration gives (C11 6.7.6).
pub fn object_type(program: &Program, number: usize) -> TypeView<'_>
    ensures { seen result ≡ spec.object_type program.now number }
{
    match program.names.objects.get(number) {
        Some(object) => or_void(object.ctype.as_ref()),
        None => or_void(None),
    }
}

/// Whether a declared object has static storage duration (C11 6.2.4p3).
pub fn is_static(program: &Program, number: usize) -> bool
    ensures { result ≡ spec.is_static program.now number }
{
    match program.names.objects.get(number) {
        Some(object) => object.is_static,
        None => true,
    }
}

/// The token of the name that a declarator declares, or the next one where there is no name (C11 6.7.6p2).
#[cycle(names)]
#[tactic(auto, using(crate::proofs::Names::name_is))]
fn name_at(declarator: &Declarator) -> usize
    ensures { result ≡ name_at declarator.now }
{
    name_within(declarator)
}

/// That of one of these: its own, or that of the declarator inside it.
#[cycle(names)]
fn name_within(declarator: &Declarator) -> usize
    ensures { result ≡ name_within (out-Declarator declarator.now) }
{
    match declarator {
        Declarator::Name { at, .. } | Declarator::Unnamed { at } => *at,
        Declarator::Pointer { inner, .. }
        | Declarator::Array { inner, .. }
        | Declarator::OpenArray { inner, .. }
        | Declarator::Function { inner, .. } => name_at(inner.get()),
    }
}

/// The declarator, with or without an initialiser (C11 6.7p1).
fn declarator_of(declared: &Declared) -> &Declarator
    ensures { result.now ≡ spec.declarator_of declared.now }
{
    match declared {
        Declared::Plain { declarator } | Declared::Initialised { declarator, .. } => declarator,
    }
}

/// What a declaration declares by this declarator.
pub fn declares<'p>(program: &'p Program, declared: &Declared) -> Option<&'p Meaning>
    ensures { option_copied result ≡ spec.declares program.now declared.now }
{
    meaning_at(program, name_at(declarator_of(declared)))
}
