//! The formats of the store's files: what a binfile, an interface file and a tool's record are, byte for byte, and
//! how they are written and read.
#![tactic(auto)]

mod bin;
mod fault;
pub mod laws;
mod read;
mod read_parts;
mod same;
mod write;

pub use bin::{Bin, ToolRecord};
pub use read::read_bin;
pub use same::same_bytes;
pub use write::{write_bin, write_interface};
