//! Laws of accepted programs: what the machine asks of a program's types is met, wherever the bare machine comes.
#![tactic(auto)]

mod laws;

pub use laws::{
    initialisers_convert, jumps_stay_inside, operations_have_types, places_have_types, returns_fit,
};
