//! Laws alone: the bodies of a bare unit that is made of a written one are sequences.
#![tactic(auto)]

mod laws;

pub use laws::bodies_are_sequences;
