//! Where the cases of the manager play: a folder in memory with the failures that a case plans, and looks at what
//! became of it and at what a compiler was asked.
#![tactic(auto)]

mod changes;
mod looks;
mod plan;
mod stage;
mod texts;

pub use changes::Files;
pub use looks::{Asked, Look, look_at, look_of};
pub use stage::{Answer, Stage, play, play_on, unknown};
pub use texts::{
    counted, lines_of, number_text, path_and_word, path_lines, push_diag, push_shown, repeated,
};
