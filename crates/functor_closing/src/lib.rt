//! Functors are closed over the type names of their parameters and results.
#![tactic(auto)]

mod closing;
mod names;
mod rows;
mod since;

pub use closing::{close_functor, make_functor};
pub use since::names_since;
