//! Laws alone: units that inference accepts have derivations by the rules.
#![tactic(auto)]

mod laws;

pub use laws::units_have_derivations;
