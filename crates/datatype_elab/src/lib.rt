//! Datatypes: their names, the types of their constructors, which of them admit equality, and what they bind.
#![tactic(auto)]

mod checks;
mod choice;
mod cons;
mod dats;
mod entries;
mod environment;
mod making;
mod names;
mod needs;
mod reading;
mod settle;
mod trees;
mod wants;
mod whole;

pub use whole::datatypes_in;
