//! The type variables that a `val` writes, in the order of their first places (The Definition of Standard ML, section
//! 4.6).
#![tactic(auto)]

mod by_place;
mod noted;
mod walk_exp;
mod walk_pat;
mod walk_ty;
mod written;

pub use written::{variables_in_type, variables_in_val};
