//! Tools for cases: those of the program, by the words of a step, with a class of their own and a run that fails.
#![tactic(auto)]

mod tool;
mod tools;

pub use tool::CaseTool;
pub use tools::tool_of;
