//! Laws alone: datatypes that inference accepts have a derivation by the rules.
#![tactic(auto)]

mod laws;

pub use laws::{datatypes_have_derivations, types_stay_below};
