//! Types of Standard ML, read from lexemes.
#![tactic(auto)]

pub mod constructors;
pub mod starts;
pub mod types;
