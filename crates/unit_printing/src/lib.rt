//! What a unit defines, for what cases of whole units print: a line for each structure, signature, functor and
//! signature of functors, much as one writes signatures. Type names that are not of the initial basis go by the order
//! in which they are printed first: `a.sml#0` is the first that the unit `a.sml` made, and `#0` the first that the
//! signature or the functor of its line binds.
#![tactic(auto)]

mod entries;
mod environments;
mod tops;

pub use tops::{push_functor, push_funsig, push_signature, push_structure, push_top};
