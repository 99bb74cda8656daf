//! The interfaces that a unit's imports hand in are read, each once while the graph keeps it, and what the unit sees of
//! them becomes one top.
#![tactic(auto)]

mod fitting;
mod looking;
mod read;
mod reading;
mod restored;

pub use reading::read_imports;
pub use restored::{RestoredInterface, RestoredInterfaces};
