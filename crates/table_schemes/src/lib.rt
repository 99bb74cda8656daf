//! Type schemes inside a table of types: an instance of one makes nodes for those alone in which a variable of the
//! scheme stands.
#![tactic(auto)]

mod enters;
mod scheme;
mod uses;

pub use enters::enter;
pub use scheme::{OpenNode, OpenPart, TableScheme};
pub use uses::instance;
