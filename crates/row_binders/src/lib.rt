//! The signatures and functors that rows of an interface are, in a graph.
#![tactic(auto)]

mod binders;
mod numbers;
mod rows;

pub use numbers::are_numbered;
pub use rows::{BinderRows, note_row};
