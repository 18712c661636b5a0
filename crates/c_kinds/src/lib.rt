//! Types of C, their conversions, and what each operator makes of its operands: definitions and their laws.
#![tactic(auto)]

mod answer;
mod copied;
mod family;
mod laws;
mod limits;
mod typed;
mod types;

pub use answer::Answer;
pub use family::Family;
pub use laws::{operators_speak, tables_are_as_worked};
pub use limits::MAX_OBJECT_CELLS;
pub use typed::{Fixed, Typed};
pub use types::{
    Base, CType, CellType, Derivation, Derivations, Member, Members, ParameterTypes, Shape,
    Signature, Signatures, Struct, Structs,
};
