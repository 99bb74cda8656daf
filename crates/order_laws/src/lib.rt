//! The order of units as a value is the one that the relations describe: laws alone. No code is here.
#![tactic(auto)]

mod laws;

pub use laws::{ranks_are_longest_chains, the_value_is_the_relation};
