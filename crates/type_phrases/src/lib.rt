//! Type phrases: the type that each stands for in its scope, in a table of types.
#![tactic(auto)]

mod diagnostics;
mod fields;
mod phrase;
mod reading;

pub use diagnostics::{place_of, refusal, refusal_of, unknown, unknown_name};
pub use fields::{check_label, record_of};
pub use phrase::elab_ty;
