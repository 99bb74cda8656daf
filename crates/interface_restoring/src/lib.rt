//! Interfaces are read back: bytes become the unit that they are the interface of, in a graph.
#![tactic(auto)]

mod laws;
mod names;
mod restoring;
mod tops;

pub use laws::restoring_goes_back;
pub use restoring::restore;
pub use tops::{UnitTables, add_unit};
