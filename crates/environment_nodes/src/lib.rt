//! What stands in a graph becomes nodes of an interface. Each node of the graph is gone through once, however often it
//! stands in what is written.
#![tactic(auto)]

mod adding;
mod places;
mod rows;
mod walking;

pub use walking::{add_env, add_functor, add_signature, add_top};
