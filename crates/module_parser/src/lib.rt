//! Units of Standard ML, read from their text: structures and functors, as they are written.
#![tactic(auto)]

mod functors;
pub mod laws;
mod seals;
mod str_decs;
mod str_exps;
mod topdecs;
mod unit;

pub use unit::parse_unit;
