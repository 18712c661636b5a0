//! The rules of declarations and initialisers (C11 6.7, 6.7.9). They take what reads the parts as parameters, so that
//! each rule is proved by itself.
#![tactic(auto)]

mod declarations;

pub use declarations::Declarations;
