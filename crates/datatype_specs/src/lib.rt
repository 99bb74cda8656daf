//! What a signature specifies at once: all that a list of entries has, datatypes, and copies of datatypes.
#![tactic(auto)]

mod datatypes;
mod entries;
mod parts;
mod replication;

pub use datatypes::elab_datatype_specs;
pub use parts::specify_made;
pub use replication::elab_replication_spec;
