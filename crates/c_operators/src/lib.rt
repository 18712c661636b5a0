//! What operators give of their operands: the answers of `c_kinds`, computed.
#![tactic(auto)]

mod assigns;
mod casts;
mod choices;
mod counts;
mod elements;
mod given;
mod moves;
mod one_operand;
mod two_operands;
mod values;

pub use assigns::{assign, assigns_misfit, fits, step};
pub use casts::cast;
pub use choices::{comma, conditional};
pub use elements::{indirection, member, pointed_member, subscript};
pub use given::Given;
pub use one_operand::{address, arithmetic, negation, sizeof_expression, sizeof_type};
pub use two_operands::binary;
pub use values::{place_typed, unqualified_copy, used, value, value_typed};
