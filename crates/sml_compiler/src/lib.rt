//! A compiler of Standard ML: it gives the skeleton of a source, and the interface and the code of a unit.
#![tactic(auto)]

mod compiler;
mod fault;
mod front;
mod laws;

pub use compiler::SmlCompiler;
pub use laws::what_is_compiled_has_a_skeleton;
