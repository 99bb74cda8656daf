//! Whether what stands at a top may be given to a unit: which type names of the unit may stand in it, and in what a table
//! of types knows, that its tables rise, and that no type variable stands in it. What is shared is gone through once.
#![tactic(auto)]

mod entries;
mod names;
mod table;
mod tops;
mod trees;
mod walk;

pub use table::knows_names_below;
pub use tops::may_stand_in_front;
