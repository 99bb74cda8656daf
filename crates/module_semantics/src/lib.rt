//! The static semantics of modules: what signatures mean and which environments match them, with first diagnostics, the
//! rules as relations, and laws.
#![tactic(auto)]

mod laws;

pub use laws::{matching_is_by_the_rules, matching_is_unique};
