//! Laws alone: signatures that inference accepts have derivations by the rules.
#![tactic(auto)]

mod laws;

pub use laws::signatures_have_derivations;
