//! Compilers for tests: each answers by a plain rule, so that a test shows what is built, what is loaded and what the
//! compiler is asked for, and not what a language means.
#![tactic(auto)]

mod asking;
mod letters;
mod marked;
mod seamed;
mod skeletons;

pub use letters::Letters;
pub use marked::Marked;
pub use seamed::Seamed;
