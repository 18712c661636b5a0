//! Where a reader stands in the tokens of a C text, what the names mean there, and what it takes by itself: single tokens
//! and marks, names, qualifiers and what has no meaning; and why it gives up.
#![tactic(auto)]

mod cursor;
mod fault;
mod inside;
mod marks;
mod meanings;
mod parts;
mod scopes;
mod skips;
mod tokens;
mod type_qualifiers;

pub use cursor::Cursor;
pub use fault::{Fault, refuse};
pub use inside::Inside;
pub use marks::{Mark, mark_at, second_mark, take};
pub use parts::{Perhaps, Specified, Titled};
pub use scopes::{BlockScope, Scopes};
pub use skips::attributes;
pub use tokens::{begins_type, is_start, name, suffix};
pub use type_qualifiers::{may_qualify_parameter, may_qualify_type, qualifiers};
