//! What is imported, exported and named in a project is what the relations of visibility say: laws alone. No code is
//! here.
#![tactic(auto)]

mod laws;

pub use laws::{exports_are_the_relation, imports_are_the_relation, names_are_by_number};
