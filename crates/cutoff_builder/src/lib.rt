//! The builder: a project's units in their order, each loaded from the store where it isn't stale, and else compiled and
//! stored. From a good store it is the plain build of the project, and the compiler is asked for the stale units alone.
#![tactic(auto)]

mod builder;
mod done;
mod fresh;
mod planned;
mod store;
mod turn;
mod unit;

pub use build_laws::{ALL_INTERFACES, CODE, INTERFACE};
pub use builder::{BuildFault, build};
pub use fresh::is_stale;
