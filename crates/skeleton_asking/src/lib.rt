//! The skeletons of a project's units in load order, up to the first that is refused: out of the binfiles that were
//! made of the same sources, else asked of the compiler.
#![tactic(auto)]

mod asking;
mod fault;
pub mod laws;
mod stored;

pub use asking::find_skeletons;
pub use fault::PlanFault;
