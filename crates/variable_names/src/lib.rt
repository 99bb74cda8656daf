//! Types with type names in the place of their own variables.
#![tactic(auto)]

mod names;

pub use names::named;
