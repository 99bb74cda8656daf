//! The types that rows of an interface are.
#![tactic(auto)]

mod rows;
mod symbols;
mod types;

pub use rows::TypeRows;
pub use types::note_row;
