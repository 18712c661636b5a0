//! Products of words of literals: circuits over a table of gates, each equal to the typed numbers' operation.
//!
//! A word is a list of literals, lowest bit first; two operands have one length, from 1 to 128. Its number is read with
//! or without a sign, as each call is told. A call that answers `NoMemory` may have added gates, which change no value.
#![tactic(auto)]

mod products;
mod signed_products;

pub use products::{masked, mul};
