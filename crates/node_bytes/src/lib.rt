//! Nodes with back references as bytes, once for every format: each equal node is written once, so that one node has
//! one spelling.
#![tactic(auto)]

mod fault;
pub mod laws;
mod table;
mod write;

pub use fault::WriteFault;
pub use table::{Item, Row};
pub use write::write_node;
