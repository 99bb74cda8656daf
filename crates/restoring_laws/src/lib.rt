//! Laws alone: when bytes are the interface of a top that they are read as, and that reading and writing go back and
//! forth.
#![tactic(auto)]

mod laws;

pub use laws::{interfaces_are_read, interfaces_go_back, numbered_names_agree};
