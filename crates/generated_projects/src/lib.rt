//! A large project is made from the number of its units, as a list of edits and commands.
#![tactic(auto)]

mod bytes;
mod description;
mod project;
mod source;

pub use project::generated_steps;
