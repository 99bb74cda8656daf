//! Laws alone: what expressions, declarations, structures and units become has names that fit, if their own names do.
#![tactic(auto)]

mod laws;

pub use laws::run_names_fit;
