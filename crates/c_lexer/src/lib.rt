//! The tokens of a C text: longest match, directives and replacements (C11 6.4, 6.10).
#![tactic(auto)]

mod directives;
mod lexer;

pub use c_tokens::{MAX_BYTES, MAX_NAME_BYTES, MAX_TOKENS};
pub use lexer::{LexFault, lex};
