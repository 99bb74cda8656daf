//! Texts as expressions, for cases: what is read becomes the one variable of a structure in a unit, since bare trees are
//! made of whole units.
#![tactic(auto)]

mod reading;

pub use reading::expression_unit;
