//! Laws alone: what inference of the core accepts has a derivation by the rules.
#![tactic(auto)]

mod laws;

pub use laws::expressions_have_derivations;
