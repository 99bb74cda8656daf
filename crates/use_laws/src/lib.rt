//! What uses of tools leave of a folder and of a box, in loadings that went on to their end and in such as were cut off:
//! definitions and laws alone. No code is here.
#![tactic(auto)]

mod laws;

pub use laws::{loading_leaves_fronts, uses_keep_builds, uses_write_records};
