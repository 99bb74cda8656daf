//! Laws alone: the tables of what inference makes rise, so that each name stands once in each.
#![tactic(auto)]

mod laws;

pub use laws::{inference_keeps_tables, units_keep_tables};
