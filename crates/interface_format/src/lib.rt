//! Interfaces as bytes: what a unit defines, in one spelling only. Definitions and laws.
#![tactic(auto)]

mod laws;

pub use laws::{interfaces_are_one, tops_are_spelled};
