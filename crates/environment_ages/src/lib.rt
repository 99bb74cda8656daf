//! Whether the type variables that stand in an environment are those of a table. What is shared in the graph is gone
//! through once.
#![tactic(auto)]

mod entries;
mod table;
mod trees;
mod walk;

pub use table::is_of_table;
pub use walk::is_below;
