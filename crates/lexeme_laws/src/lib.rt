//! Laws alone: what the names and constants of a source are.
#![tactic(auto)]

mod laws;

pub use laws::lexemes_are_within_limits;
