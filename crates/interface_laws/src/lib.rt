//! Laws alone: what an interface says is in canonical form.
#![tactic(auto)]

mod laws;

pub use laws::interfaces_are_canonical;
