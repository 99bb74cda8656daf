//! The canonical form of what a unit defines: names and variables numbered by first occurrence. What is shared in the
//! graph is gone through once.
#![tactic(auto)]

mod binders;
mod tops;

pub use tops::{canon, envs_of};
