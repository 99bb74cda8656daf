//! Trees of Standard ML as they are written, as lines in which tests compare them. docs/CASES.md has the form.
#![tactic(auto)]

mod expressions;
mod patterns;
mod signatures;
mod structures;
mod types;
mod units;

pub use expressions::{dec, decs, exp};
pub use patterns::pat;
pub use types::ty;
pub use units::unit;
