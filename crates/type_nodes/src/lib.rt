//! Types as a table of types has them: variables in the order of their making, nodes over ids that were made before
//! them, each with what is known of it at once, and what was put in for variables since, taken back from the end.
#![tactic(auto)]

mod bindings;
mod both;
mod entry;
mod facts;
mod kept;
mod mark;
mod node;
mod nodes;
mod stamp;
mod way;

pub use bindings::TypeBindings;
pub use entry::Entry;
pub use facts::{Facts, LARGE};
pub use mark::Mark;
pub use node::{Birth, Node};
pub use nodes::TypeNodes;
pub use stamp::Weight;
