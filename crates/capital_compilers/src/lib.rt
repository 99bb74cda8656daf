//! Two compilers for tests, of sources in which each capital letter, with the digits behind it, is the name of a
//! structure: the interfaces of one show nothing, and those of the other are the sources.
#![tactic(auto)]

mod asking;
mod names;
mod quiet;
mod shown;
mod skeletons;

pub use quiet::Quiet;
pub use shown::Shown;
