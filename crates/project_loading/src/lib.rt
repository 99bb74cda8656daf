//! What the loading of projects of groups and libraries is: its definitions, and what a member is found to be. No folder
//! is read here.
#![tactic(auto)]

mod classes;
mod diagnostics;
mod found;
mod laws;

pub use classes::Class;
pub use diagnostics::{command_file, command_place, there};
pub use found::{Found, found_of, is_skipped, root_name};
pub use laws::loading_is_whole;
