//! The rules of structure expressions with signatures and functors, each after its parts were elaborated.
#![tactic(auto)]

mod application;
mod opaque;
mod place;
mod results;
mod transparent;

pub use application::apply_functor;
pub use opaque::seal_structure;
pub use transparent::match_structure;
