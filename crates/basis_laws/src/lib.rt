//! Laws of the initial basis: a unit may begin with it.
#![tactic(auto)]

mod laws;

pub use laws::units_begin_with_the_basis;
