//! Type functions that are applied in a table of types: a type with ids of the table in place of its own variables.
#![tactic(auto)]

mod application;

pub use application::apply;
