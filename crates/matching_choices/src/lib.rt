//! Laws alone: a structure that matches a signature does so under each choice of what its variables stand for.
#![tactic(auto)]

mod laws;

pub use laws::matching_stays;
