//! What the environments of a graph are made of: tables of places by name, copies of entries, and the facts that are kept
//! of the types that stand in them.
#![tactic(auto)]

mod copies;
mod entry_facts;
mod facts;
mod rows;
mod tables;

pub use copies::{copy_names, copy_type, copy_value};
pub use entry_facts::{type_facts, value_facts};
pub use facts::Facts;
pub use rows::Rows;
pub use tables::{EnvTables, TopTables};
