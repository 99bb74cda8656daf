//! Bare trees of Standard ML as lines, in which tests compare them, and what such lines are made with.
//! docs/CASES.md has the form.
#![tactic(auto)]

mod expressions;
mod patterns;
mod printer;
mod signatures;
mod types;
mod units;

pub use printer::Printer;
pub use units::unit;
