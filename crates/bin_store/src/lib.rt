//! The store: the files under `.cm/`, where they stand, how they are put and got, and what makes a store good.
#![tactic(auto)]

mod fault;
mod found;
pub mod laws;
mod paths;
mod store;

pub use bin_formats::{Bin, ToolRecord, read_bin, write_bin};
pub use fault::StoreFault;
pub use paths::{bin_path, interface_path};
pub use store::{get_bin, get_interface, put_bin, put_interface};
