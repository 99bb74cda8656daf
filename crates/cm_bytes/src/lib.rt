//! The bytes of every file: fields that are written and read, and the hashes that files go by.
#![tactic(auto)]

mod hash;
pub mod laws;
mod reader;
mod short;
mod writer;

pub use hash::{pid_name, pid_of, same_pid};
pub use reader::Reader;
pub use short::Short;
pub use writer::Writer;
