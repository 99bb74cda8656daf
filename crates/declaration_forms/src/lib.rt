//! Declarations without parts in a scope of the core, and the ends of declarations and of `let`.
#![tactic(auto)]

mod ends;
mod forms;
mod whole;

pub use ends::{check_made, end_let};
pub use forms::{
    declare_datatypes, declare_exceptions, declare_open, declare_replica, declare_types,
};
pub use whole::make_declared;
