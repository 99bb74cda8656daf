//! The fields of the nodes of an interface, taken from the front of a row's items.
#![tactic(auto)]

mod fields;
mod lists;
mod names;

pub use fields::Fields;
