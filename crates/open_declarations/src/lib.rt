//! What `open` declarations bind.
#![tactic(auto)]

mod entries;
mod names;

pub use names::elab_open;
