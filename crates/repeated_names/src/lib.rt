//! Names that stand twice in a list that may hold each but once, and the earliest of their places.
#![tactic(auto)]

mod find;
mod find_exp;
mod find_pat;
mod find_sig;
mod find_str;
mod find_ty;
mod find_unit;

pub use find_unit::first_repeat;
