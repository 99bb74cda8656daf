//! The initial basis: types, constructors, exceptions and values that each source begins with, and the built-in
//! structures. It is written as a table, a row a line, which a small reader makes into entries.
#![tactic(auto)]

mod entries;
mod initial;
mod phrases;
mod row;
mod table;
mod type_names;
mod types;
mod words;

pub use initial::{basis, basis_type_names};
