//! Types and schemes as they are written in a source, for what cases of elaboration print: variables are named by first
//! occurrence, tuples have `*`, type names of the initial basis go by their names, and others by owner and number, or
//! by owner and the order in which they are printed.
#![tactic(auto)]

mod names;
mod numbers;
mod piece;
mod trees;
mod variables;

pub use numbers::NameNumbers;
pub use trees::{push_numbered_function, push_numbered_scheme, push_scheme, push_type};
pub use variables::push_arguments;
