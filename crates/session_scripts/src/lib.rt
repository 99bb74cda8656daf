//! Scripts of sessions: a text is read as a list of edits and commands.
#![tactic(auto)]

mod content;
mod line;
mod refusal;
mod script;
mod step;
mod text;

pub use line::Line;
pub use script::read_script;
pub use step::Step;
