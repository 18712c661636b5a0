//! The rules of labelled statements and blocks (C11 6.8.1, 6.8.2). They take what reads the parts as parameters, so that each
//! rule is proved by itself.
#![tactic(auto)]

mod statements;

pub use statements::Statements;
