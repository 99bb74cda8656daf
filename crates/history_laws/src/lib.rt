//! The theorem over lists of edits and calls where members may be of tools' classes: whatever was built before, a command
//! does what it does from nothing, asks the compiler for what changed, and runs a tool where its record differs.
#![tactic(auto)]

mod laws;
mod program;

pub use laws::{
    a_command_keeps_the_store_good, a_command_knows_no_store, every_history, every_list_of_calls,
};
pub use program::call_program;
