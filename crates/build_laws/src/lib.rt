//! What a build is: the plain build, which knows no store; what is stale in a store; the build over a store; and the
//! laws between them. No code is here.
#![tactic(auto)]

mod limits;

pub use limits::{ALL_INTERFACES, CODE, INTERFACE};
