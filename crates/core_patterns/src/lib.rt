//! Patterns of Standard ML, read from lexemes.
#![tactic(auto)]

pub mod atpats;
pub mod constraints;
pub mod layers;
pub mod operand;
pub mod pat_fields;
pub mod pat_starts;
pub mod patterns;
