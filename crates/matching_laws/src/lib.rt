//! Laws alone: an environment is found to match a signature wherever a realisation matches it.
#![tactic(auto)]

mod laws;

pub use laws::{matching_accepts_exactly_what_matches, matching_finds_what_matches};
