//! Laws alone: which bare units have a code.
#![tactic(auto)]

mod laws;

pub use laws::low_units_have_codes;
