//! What programs of cases share: cases of texts with an answer each, cases of steps, and what several kinds print.
#![tactic(auto)]

mod expanding;
mod printing;
mod steps;
mod texts;

pub use expanding::expanded;
pub use printing::{line, push_diag, push_line, refusal};
pub use steps::{Scene, take_steps, words_of};
pub use texts::{Answers, try_texts};
