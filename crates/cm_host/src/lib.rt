//! The machine that a command runs on: the files below a directory, standard output, and the words of the call.
#![tactic(auto)]

mod real_folder;
mod real_sink;
mod walk;
mod words;

pub use real_folder::RealFolder;
pub use real_sink::RealSink;
pub use words::{WordsFault, program_words};
