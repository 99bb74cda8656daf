//! Environments as they are known: what stands for the variables of a table of types is put in for them. And what
//! bindings of the top level make, in which no variable is left.
#![tactic(auto)]

mod collecting;
mod entries;
mod images;
mod knowing;
mod known;
mod left;
mod putting;
mod trees;

pub use left::without_variables;
pub use putting::known_env;
