//! The type functions, schemes and type structures that rows of an interface are.
#![tactic(auto)]

mod functions;
mod rows;
mod schemes;
mod structures;
mod variables;

pub use rows::{EntryRows, note_entry};
pub use structures::structure_row;
