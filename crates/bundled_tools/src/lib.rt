//! The tools that come with the program: each makes a source out of a file of another kind.
#![tactic(auto)]

mod bundled;
mod embed;
mod literate;
mod module_name;
mod prelude;

pub use bundled::BundledTool;
pub use embed::Embed;
pub use literate::Literate;
pub use prelude::Prelude;
