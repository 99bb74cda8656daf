//! Laws alone: what its imports give a unit may be given to its elaboration.
#![tactic(auto)]

mod laws;

pub use laws::imports_may_be_given;
