//! What the nodes of expressions are, from the answers of their parts, and which pairs are broken there, as `c_rules` has them.
#![tactic(auto)]

mod arguments;
mod calls;
mod laws;
mod names;
mod nodes;
mod pairs;
mod place_nodes;

pub use arguments::{Argument, call_node, call_of_value, comma_node};
pub use calls::is_assert_fail;
pub use laws::{parts_are_listed, places_have_cells};
pub use names::{cast_to_named, constant, is_function_meaning, meaning_at, name, sizeof_named};
pub use nodes::{
    assign_node, binary_node, cast_node, conditional_node, postfix_node, prefix_node, sizeof_node,
};
pub use pairs::{broken_in, call_pairs, misfit_pairs};
pub use place_nodes::{member_node, pointed_member_node, subscript_node, unary, unary_node};
