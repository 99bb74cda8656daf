//! What was loaded so far, and the project of it, or what is refused of it after all loading.
#![tactic(auto)]

mod assembling;
mod checks;
mod laws;
mod limits;
mod names;
mod owners;
mod progress;
mod whole;

pub use laws::owners_are_those_above;
pub use limits::{ALL_SOURCES, GROUPS, LEVELS, PATHCONFIG, SOURCE, UNITS};
pub use owners::Owned;
pub use progress::{Membership, Progress};
pub use whole::checked;
