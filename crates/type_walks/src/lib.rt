//! Types with type functions in place of type names. A type tree is a list of nodes that may share parts, and each node
//! is gone through once.
#![tactic(auto)]

mod entries;
mod images;
mod names;
mod replacing;
mod trees;

pub use entries::{replaced_type, replaced_value};
pub use names::NameTable;
pub use replacing::{Realisation, Replace, Replacements};
