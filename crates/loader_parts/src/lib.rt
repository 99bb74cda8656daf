//! The reading of a project: descriptions, sources and anchors of a folder, and the tables of what was loaded.
#![tactic(auto)]

mod fault;
mod limits;
mod loader;
mod members;
mod reading;

pub use fault::ReadFault;
pub use limits::DESCRIPTION;
pub use loader::Loader;
pub use members::{Holder, Opening, begun, chosen, load_source};
pub use reading::{Context, read_anchors, read_group, read_member_group, read_named};
