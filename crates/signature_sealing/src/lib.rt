//! Signatures that are used: new type names of the unit stand for those that they bind.
#![tactic(auto)]

mod renewal;
mod sealing;

pub use renewal::{NewNames, new_names, own_function};
pub use sealing::{open_signature, seal};
