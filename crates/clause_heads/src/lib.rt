//! The heads of the clauses of functions, read from lexemes.
#![tactic(auto)]

pub mod head;
pub mod heads;
pub mod paren_head;
