//! What is in scope while a phrase is elaborated: an environment of a graph with bindings over it, which are looked up
//! by name, and taken back in as many steps as there were bindings.
#![tactic(auto)]

mod laws;
mod look;
mod made;
mod mark;
mod opened;
mod path;
mod scope;
mod value;
mod written;

pub use laws::{fronts_go_on, scopes_stay};
pub use made::{Made, MadeBound, NamedInScope};
pub use mark::ScopeMark;
pub use scope::Scope;
pub use value::{BoundValue, NamedBound, ValueInScope};
pub use written::InScope;
