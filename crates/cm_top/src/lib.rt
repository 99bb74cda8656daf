//! The program: from the words of a command line to a folder's files and the lines that it prints, with a box of tools for
//! members of their classes.
#![tactic(auto)]

mod commands;
mod generating;
mod printed;
mod run;
mod sessions;

pub use command_parts::Status;
pub use command_words::{Call, Command, read_call, read_words};
pub use generating::generate;
pub use printed::Printed;
pub use run::{run_cm, run_sure};
pub use sessions::session;
