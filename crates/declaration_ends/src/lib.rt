//! The ends of declarations and of `let`: the sizes of all types of what was made, and type names that don't leave.
#![tactic(auto)]

mod leaving;
mod made;
mod passed;
mod sizes;
mod structures;

pub use leaving::within_let;
pub use made::sized_made;
