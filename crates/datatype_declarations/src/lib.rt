//! What `datatype` declarations bind.
#![tactic(auto)]

mod bindings;
mod declared;

pub use bindings::elab_datatypes;
pub use declared::datatypes;
