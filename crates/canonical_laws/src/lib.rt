//! Laws alone: the canonical form is its own canonical form, and no numbers of names or variables change it.
#![tactic(auto)]

mod laws;

pub use laws::{canonical_is_canonical, numbers_change_nothing};
