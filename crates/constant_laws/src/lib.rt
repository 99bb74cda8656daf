//! Laws alone: the constants of the bare unit of a source fit.
#![tactic(auto)]

mod laws;

pub use laws::constants_fit;
