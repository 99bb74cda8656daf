//! The laws of what loading reads: files of the project, and none of the store. No code is here.
#![tactic(auto)]

mod laws;

pub use laws::{loading_reads_the_project, names_lie_outside_the_store};
