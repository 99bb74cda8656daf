//! The static semantics of structures, functors and whole units: what they define with first diagnostics, the rules as
//! relations, and laws.
#![tactic(auto)]

mod laws;

pub use laws::{core_means_the_same, units_are_closed, units_define_structures};
