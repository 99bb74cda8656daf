//! Tables of nodes, in which each node stands once: it is found by its tag, its pieces and the places of its parts.
#![tactic(auto)]

mod table;

pub use table::NodeTable;
