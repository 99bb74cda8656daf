//! The canonical form of types: names with their places in an order for their numbers, and the variables of schemes by
//! first occurrence. The nodes of a type stay where they are, so that what is shared is gone through once.
#![tactic(auto)]

mod entries;
mod numbering;
mod renaming;
mod same;
mod variables;

pub use numbering::{FunctorNames, Numbering, bound_names, functor_names, own_names};
