//! What `exception` declarations bind.
#![tactic(auto)]

mod bindings;
mod declared;
mod entry;
mod reserved;

pub use bindings::elab_exceptions;
pub use declared::exceptions;
