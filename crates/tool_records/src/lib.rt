//! The records of what tools made: how they are written and read, and where they stand in the store.
#![tactic(auto)]

mod fault;
mod found;
pub mod laws;
mod read;
mod store;
mod write;

pub use read::read_record;
pub use store::{get_record, put_record, tool_path};
pub use write::write_record;
