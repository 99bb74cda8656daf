//! Laws alone: the bare unit of a source is as its format wants it, and has a code.
#![tactic(auto)]

mod laws;

pub use laws::{fit_units_have_codes, sources_fit_format, sources_have_codes};
