//! Laws alone: the names of each type, pattern and expression that is read fit.
#![tactic(auto)]

mod laws;

pub use laws::types_fit;
