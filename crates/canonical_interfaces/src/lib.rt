//! Laws alone: the canonical form of what a unit defines can be written as an interface.
#![tactic(auto)]

mod laws;

pub use laws::fair_tops_are_written;
