//! What the text of a description is read as, and what a list of its lines chooses, as functions: the one answer of
//! each call.
#![tactic(auto)]

mod answers;
mod laws;

pub use answers::{choose, describe};
pub use laws::{lines_choose_their_items, texts_are_described};
