//! The linker: from the units that a build has done to the bytes of the linked program, and back from such bytes.
#![tactic(auto)]

pub mod laws;
mod linking;
mod program;
mod reading;
mod writing;

pub use linking::link;
pub use program::{Linked, LinkedImport, LinkedUnit, Program, ProgramUnit};
pub use reading::read_linked;
pub use writing::write_linked;
