//! Types closed over the variables of a list, in the list's order: type functions and the arguments of constructors.
#![tactic(auto)]

mod closed;
mod firm;
mod listed;

pub use closed::closed_over_list;
pub use listed::{ListedType, elab_listed};
