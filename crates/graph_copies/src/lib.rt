//! What stands at the top of a graph is copied to another graph. What is shared in the one is shared in the other.
#![tactic(auto)]

mod nodes;
mod walking;

pub use walking::copy_top;
