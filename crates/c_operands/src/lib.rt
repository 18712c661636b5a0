//! The rules of what an expression begins with, and of what stands after an operand (C11 6.5). They take what reads the
//! expressions and the type names inside as parameters, so that each rule is proved by itself.
#![tactic(auto)]

mod operands;
mod suffixes;

pub use operands::Operands;
pub use suffixes::Suffixes;
