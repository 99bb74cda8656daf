//! Laws alone: types that a `val` closed, seen from inside.
#![tactic(auto)]

mod laws;

pub use laws::closed_variables_reopen;
