//! What a name is replaced by: macros, and the names of headers (C11 6.10.2, 6.10.3).
#![tactic(auto)]

mod headers;
mod macros;

pub use headers::{Header, find_header};
pub use macros::Macros;
