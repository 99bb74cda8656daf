//! Laws alone: each name that a signature binds is that of a type in it.
#![tactic(auto)]

mod laws;

pub use laws::{signatures_stand, standing_names_occur, units_stand};
