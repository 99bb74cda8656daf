//! Laws alone: what each form becomes has constants that fit, if what its parts become has.
#![tactic(auto)]

mod laws;

pub use laws::runs_fit;
