//! Entries of environments, for what cases of elaboration print.
#![tactic(auto)]

mod entries;

pub use entries::{type_line, value_line};
