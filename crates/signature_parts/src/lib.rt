//! What signatures are made of beside their own values and types: signatures by name, structures, included signatures;
//! what is specified so far in scope; and the end of a signature.
#![tactic(auto)]

mod closing;
mod ending;
mod including;
mod marks;
mod named;
mod scoping;

pub use closing::close_signature;
pub use ending::end_signature;
pub use including::{include, specify_structure};
pub use marks::{SpecifiedMark, mark};
pub use named::use_signature;
pub use scoping::bind_since;
