//! What names stand for, which rules a text breaks, and which programs are accepted: definitions and their laws.
#![tactic(auto)]

mod checks;
mod laws;
mod names;
mod program;

pub use checks::{CheckKind, Checks, Goal};
pub use laws::{
    answers_go_by_parts, calls_descend, expressions_have_types, initialisers_fit,
    names_have_meanings, one_answer, rules_are_as_worked,
};
pub use names::{
    Declares, Function, Functions, KnownFunction, Meaning, Names, Object, Objects, Pair, Pairs,
    ScopeEntry,
};
pub use program::{Program, Types};
