//! What all reading of phrases of Standard ML stands on: lexemes as they are read, trees with their heights, and
//! names.
#![tactic(auto)]

pub mod binders;
pub mod lexeme;
pub mod lexemes;
pub mod stop;
pub mod tall;
