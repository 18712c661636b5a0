//! Specifiers, structs, enumeration constants and known functions, as declarations have them.
#![tactic(auto)]

mod enums;
mod known;
mod specified;
mod structs;
mod tags;
mod words;

pub use enums::counts;
pub use known::{is_known, is_known_in_file, is_known_signature, known_named, may_have_body};
pub use specified::Specified;
pub use structs::{begins_struct, ends_struct, is_too_large};
pub use tags::{copy_of, enum_named, struct_tag, typedef_named};
pub use words::type_named;
