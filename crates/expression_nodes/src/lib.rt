//! The bare nodes that expressions, declarations and structure expressions are made of.
#![tactic(auto)]

pub mod fun;
pub mod node;
pub mod part;
