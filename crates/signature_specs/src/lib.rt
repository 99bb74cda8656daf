//! Specifications in signatures: values, types and exceptions.
#![tactic(auto)]

mod exceptions;
mod own_types;
mod specified;
mod types;
mod under;
mod vals;
mod variables;

pub use exceptions::elab_exception_specs;
pub use specified::{Specified, check_new, specify_type, specify_value};
pub use types::elab_types;
pub use under::type_under;
pub use vals::elab_vals;
