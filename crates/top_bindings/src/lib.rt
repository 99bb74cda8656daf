//! Structures, signatures, functors and signatures of functors that declarations of the top level bind.
#![tactic(auto)]

mod functors;
mod funsigs;
mod params;
mod ready;
mod signatures;
mod structures;

pub use functors::elab_functors;
pub use funsigs::elab_funsigs;
pub use signatures::elab_signatures;
pub use structures::elab_structures;
