//! The forms of type functions: which of them are a type name alone, and which admit equality.
#![tactic(auto)]

mod admitting;
mod flexible;

pub use admitting::admits;
pub use flexible::alone;
