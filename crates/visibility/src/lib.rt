//! What the groups of a project export, and which unit provides each name that a unit uses. docs/groups.md has the
//! rules.
#![tactic(auto)]

mod built_in;
mod calls;
mod chosen;
mod copies;
mod defaults;
mod definers;
mod entries;
mod exported;
mod found;
mod group_names;
mod importing;
mod laws;
mod names;
mod naming;
mod places;
mod projects;
mod refusals;
mod showing;
mod there;

pub use built_in::is_built_in;
pub use calls::{exports, imports};
pub use found::Found;
pub use laws::{chosen_items_are_selected, imports_are_provided, providers_are_found};
pub use names::Names;
pub use naming::all_names;
