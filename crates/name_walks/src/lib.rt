//! Type names and variables by first occurrence. A part that is shared is gone through once.
#![tactic(auto)]

mod names;
mod noting;
mod walking;

pub use names::{names_of, names_of_all};
pub use walking::visits;
