//! The objects that elaboration speaks of: type names, types as trees, type schemes, type structures, and the entries
//! of an environment. `specs/` has them as contracts see them, and environments, signatures and functors as data.
#![tactic(auto)]

mod entry;
mod laws;
mod name;
mod node;
mod part;
mod scheme;
mod shared;
mod symbol;
mod tree;

pub use entry::{ConEntry, TypeFn, TypeStr, ValueEntry, VidStatus};
pub use laws::{entries_are_found_by_name, symbols_are_compared_whole};
pub use name::{Owner, TyId, TyName};
pub use node::TypeNode;
pub use part::{TreeField, TreePart};
pub use scheme::{Scheme, SchemeParts};
pub use symbol::Symbol;
pub use tree::TypeTree;
