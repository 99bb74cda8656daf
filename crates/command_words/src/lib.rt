//! The words of a command line: which command they mean.
#![tactic(auto)]

mod arguments;
mod call;
mod command;
mod definitions;
mod unit_count;
mod words;

pub use call::{Call, read_call, read_line};
pub use command::Command;
pub use words::read_words;
