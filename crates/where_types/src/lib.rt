//! Signatures with `where type`.
#![tactic(auto)]

mod checks;
mod functions;
mod replacing;
mod whole;

pub use whole::elab_where;
