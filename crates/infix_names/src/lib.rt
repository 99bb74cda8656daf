//! Infix status: which names are infix at a place, kept in a table with links, and which operators may stand together.
#![tactic(auto)]

pub mod fixity;
pub mod fixity_table;
mod laws;

pub use laws::operators_clash_by_rule;
