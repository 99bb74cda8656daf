//! Realisation of type names by type functions, and the canonical form of what a unit defines: definitions and laws.
#![tactic(auto)]

mod laws;

pub use laws::realisation_keeps_instances;
