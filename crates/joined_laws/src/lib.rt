//! Laws alone: signatures, and the bindings of them that `and` joins, are exactly those of the forms that the grammar
//! prints.
#![tactic(auto)]

mod laws;

pub use laws::{bindings_are_joined, includes_are_of_the_forms, signatures_are_of_the_forms};
