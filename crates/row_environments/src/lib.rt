//! The type structures and environments that rows of an interface are, in a graph.
#![tactic(auto)]

mod environments;
mod rows;
mod tables;
mod values;

pub use rows::{EnvRows, ToldRows, note_env};
pub use tables::{names_of, place_at, place_rows};
