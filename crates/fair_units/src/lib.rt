//! Laws alone: what a unit defines can be written as an interface.
#![tactic(auto)]

mod laws;

pub use laws::units_are_fair;
