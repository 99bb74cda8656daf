//! The loader of projects whose members may be of tools' classes: their sources are derived as the project is loaded.
#![tactic(auto)]

mod descent;
mod fault;
pub mod laws;
mod members;
mod project;

pub use fault::LoadFault;
pub use project::load;
