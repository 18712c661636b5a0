//! What the machine's operators, conversions and pointers give, computed as `c_model` defines them.
#![tactic(auto)]

mod living;
mod numbers;
mod pointers;
mod scalars;
mod store;

pub use living::outlive_cells;
pub use numbers::{on_number, on_numbers, operation_type};
pub use pointers::{element, further};
pub use scalars::{
    as_pointer, cells_as, is_no, is_zero, number_as, number_in, same_pointer, scalar_as, scalar_in,
    truth_of,
};
pub use store::Store;
