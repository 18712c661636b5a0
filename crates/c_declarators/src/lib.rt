//! The rules of type names (C11 6.7.7), the sizes of arrays (6.7.6.2), declarators and parameters (6.7.6). They take what
//! reads the parts as parameters, so that each rule is proved by itself.
#![tactic(auto)]

mod declarators;
mod shapes;
mod sizes;
mod type_names;

pub use declarators::{Declarators, Parameters};
pub use type_names::TypeNames;
