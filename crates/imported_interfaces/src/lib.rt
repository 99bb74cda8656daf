//! The interfaces that a unit's imports hand in: which of them can be used, and what the unit sees of them.
#![tactic(auto)]

mod fitting;
mod known;
mod laws;

pub use fitting::{all_fit, known_at_first, note_all};
pub use known::{KnownNames, Standing};
pub use laws::known_names_fit;
