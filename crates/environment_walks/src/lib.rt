//! Walks over whole environments of a graph. What is shared in the graph is gone through once in each walk.
#![tactic(auto)]

mod changing;
mod owners;
mod places;
mod realising;
mod rows;
mod steps;

pub use changing::{TypeChanges, change_env};
pub use places::Images;
pub use realising::realise;
pub use rows::mapped_rows;
pub use steps::{Step, enter_all, enter_rows};
pub use type_walks::{Realisation, Replace};
