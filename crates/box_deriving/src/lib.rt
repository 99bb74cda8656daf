//! One member's use of a tool, as a step of a loading that uses tools.
#![tactic(auto)]

mod members;

pub use members::derive_member;
