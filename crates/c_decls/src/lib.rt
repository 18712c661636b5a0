//! What declarators, parameters, members and declared names declare.
#![tactic(auto)]

mod built;
mod declarators;
mod definitions;
mod functions;
mod holds;
mod members;
mod names;
mod objects;
mod parameters;
mod typedefs;

pub use built::{Built, FirstSize, How, Listed, MemberSite, ParameterBuilt, Site};
pub use declarators::{
    array_begins, const_among, function_by, is_direct, named_at, open_length, pointer_if,
    signature_of, volatile_pairs,
};
pub use definitions::{definition_pairs, ends_text, how_of, leaves_unsaid};
pub use functions::declares_function;
pub use holds::{holds_incomplete, holds_no_result, holds_unpointed};
pub use members::names_member;
pub use names::declares_name;
pub use objects::declares_object;
pub use parameters::{all_types, parameter_built};
pub use typedefs::declares_typedef;
