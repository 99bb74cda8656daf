//! Anchors and names: what a pathconfig binds, the one name of the file that a written path means, and where
//! in the folder a name lies.
#![tactic(auto)]

mod anchors;
mod fault;
mod laws;
mod line;
mod naming;
mod parts;
mod pathconfig;
mod route;
mod table;

pub use anchors::Anchors;
pub use fault::PathFault;
pub use laws::{a_file_has_one_name, names_lie_in_the_project};
pub use line::BoundLine;
pub use naming::{folder_path, resolve};
pub use pathconfig::read_pathconfig;
pub use route::Route;
