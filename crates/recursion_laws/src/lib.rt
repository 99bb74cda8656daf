//! Laws alone: the right sides of the `rec` bindings of a source are functions.
#![tactic(auto)]

mod laws;

pub use laws::recs_are_functions;
