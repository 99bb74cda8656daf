//! What bindings of types are made of: lists of type variables, and the replication of datatypes.
#![tactic(auto)]

mod replication;
mod variables;

pub use replication::replicate;
pub use variables::list_variables;
