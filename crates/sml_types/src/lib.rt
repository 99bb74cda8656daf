//! A table of types: variables, types over them, and unification, which is undone where it is refused.
#![tactic(auto)]

mod applying;
mod covers;
mod fault;
mod frame;
mod look;
mod made;
mod notes;
mod occurs;
mod pair;
mod record;
mod require;
mod size;
mod table;
mod unify;
mod weigh;

pub use fault::TypeFault;
pub use look::{Look, LookField};
pub use semantic_objects::TyId;
pub use table::TypeTable;
pub use table_schemes::TableScheme;
pub use type_nodes::Mark;
