//! What is asked of the nodes of an interface.
#![tactic(auto)]

mod names;

pub use names::{are_names, is_name};
