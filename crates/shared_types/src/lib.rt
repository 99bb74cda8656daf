//! A type of a list of nodes that many types share becomes a type of its own.
#![tactic(auto)]

mod nodes;
mod walking;

pub use walking::type_at;
