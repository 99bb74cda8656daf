//! Texts as declarations, for cases: what is read becomes the declarations of a structure in a unit, since bare trees are
//! made of whole units.
#![tactic(auto)]

mod reading;

pub use reading::{UNIT, declaration_unit};
