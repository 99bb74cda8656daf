//! Laws alone: structure expressions and the declarations in them that inference accepts have derivations by the rules.
#![tactic(auto)]

mod laws;

pub use laws::modules_have_derivations;
