//! The tools of members, under one name: a box of tools, the sources that are derived by them, and the three tools that
//! come with the program.
#![tactic(auto)]

pub use bundled_tools::{BundledTool, Embed, Literate, Prelude};
pub use tool_deriving::{DeriveFault, Toolbox, derive};
