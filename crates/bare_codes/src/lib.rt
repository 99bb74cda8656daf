//! Laws alone: a bare unit that a unit becomes has a code.
#![tactic(auto)]

mod laws;

pub use laws::bare_units_have_codes;
