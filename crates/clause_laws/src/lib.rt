//! Laws alone: which heads the clauses of a function have.
#![tactic(auto)]

mod laws;

pub use laws::{clauses_are_of_one_function, heads_have_their_forms};
