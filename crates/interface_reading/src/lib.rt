//! The bytes of an interface are read as a table of nodes.
#![tactic(auto)]

mod fault;
pub mod laws;
mod needs;
mod open;
mod reading;
mod rows;

pub use fault::RestoreFault;
pub use rows::read_rows;
