//! The sources of members of tools' classes: which tool a class has, and what one member's use of it gives.
#![tactic(auto)]

mod classes;
mod fault;
pub mod laws;
mod sources;

pub use classes::find_tool;
pub use fault::MemberFault;
pub use sources::derive_source;
