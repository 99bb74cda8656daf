//! Laws alone: in the phrases that a source becomes `rec` binds functions, and what inference gives of them the rules
//! give.
#![tactic(auto)]

mod laws;

pub use laws::{sources_bind_functions, sources_have_derivations};
