//! Laws alone: the names of the bare unit of a source fit.
#![tactic(auto)]

mod laws;

pub use laws::names_fit;
