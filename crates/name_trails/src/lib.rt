//! What names stand for where bindings come and go: entries by name with a trail, so that the last binding of a name
//! is looked up and not sought, and the end of a scope costs what was bound in it.
#![tactic(auto)]

mod places;
mod trail;

pub use trail::NameTrail;
