//! Laws alone: the heads of clauses are exactly those of the three forms that the grammar prints.
#![tactic(auto)]

mod laws;

pub use laws::heads_are_of_the_forms;
