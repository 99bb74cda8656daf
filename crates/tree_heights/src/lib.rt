//! How high the bare tree of a unit is, known before it is made.
#![tactic(auto)]

mod height;
mod height_exp;
mod height_head;
mod height_node;
mod height_pat;
mod height_sig;
mod height_str;
mod height_ty;
mod height_unit;

pub use height_unit::unit_height;
