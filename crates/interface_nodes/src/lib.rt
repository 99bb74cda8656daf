//! The nodes of interfaces, added to a table of nodes: a call for each tag, from the places of its parts.
#![tactic(auto)]

mod entries;
mod environments;
mod fields;
mod trees;
mod types;

pub use entries::{add_value, add_whole_function, add_whole_scheme, add_whole_type};
pub use environments::{
    EnvPlaces, add_environment, add_functor, add_signature, add_type_structure, add_unit,
};
pub use fields::{NamedPlace, ValuePlace};
pub use trees::add_tree;
pub use types::{add_arrow, add_function, add_named, add_record, add_scheme, add_variable};
