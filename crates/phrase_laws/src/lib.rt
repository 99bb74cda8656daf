//! Laws alone: types, patterns and declarations without expressions that inference accepts have derivations by the rules.
#![tactic(auto)]

mod laws;

pub use laws::{patterns_have_derivations, types_have_derivations};
