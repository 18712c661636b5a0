//! The types of C, their conversions, sizes and constants, computed as `c_kinds` defines them.
#![tactic(auto)]

mod addresses;
mod constants;
mod equal;
mod integers;
mod qualifiers;
mod shapes;
mod sizes;
mod structs;

pub use addresses::{element_of, further_in, moved};
pub use constants::{
    binary_value, chosen_integer, chosen_pointer, in_type, is_zero, operation, unary_operation,
    unary_value,
};
pub use equal::{alike, same, same_integer, same_signature, signature_number};
pub use integers::{converted, long_of, promoted, size_type, unsigned_long_of, usual};
pub use qualifiers::{also_const, const_of, unqualified, with_const};
pub use shapes::{
    base_shape, derived_from, inner, inner_shape, integer, is_array, is_function, is_integer,
    is_pointer, is_rows, is_scalar, is_struct, is_void, plain, pointer_to, shape_by, shape_of,
    void,
};
pub use sizes::{cell_count, cells_by, count_if, same_cell, wrapped_bytes};
pub use structs::{
    has_const, is_incomplete, is_incomplete_shape, lacks_elements, member_in, members_by,
    members_of, struct_is_complete,
};
