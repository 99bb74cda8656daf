//! A box of tools, one for each class of members, and the sources that they make: a tool runs exactly where its record
//! differs.
#![tactic(auto)]

mod fault;
pub mod laws;
mod toolbox;
mod uses;

pub use fault::DeriveFault;
pub use toolbox::Toolbox;
pub use uses::derive;
