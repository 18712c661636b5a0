//! What the machine takes from a program, looked up: what stands at a token, types and their parts, objects and functions.
#![tactic(auto)]

mod functions;
mod objects;
mod tokens;
mod types;

pub use functions::{Callee, Parameters, called, parameters_of, result_shape};
pub use objects::{declares, is_static, object_type};
pub use tokens::{case_at, line_at, meaning_at, token_of, type_at, type_named, type_of};
pub use types::{TypeView, cell_count, inner, members, offset_of, part_type, shape_of, whole};
