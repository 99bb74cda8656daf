//! The steps of a session.

use cm_base::{List, Text};

/// A step of a session: an edit of the project, or a command.
#[derive(Clone, Debug, Drop)]
pub enum Step {
    /// The file at a path of the folder gets this content.
    Write { path: Text, content: Text },
    /// The file at a path of the folder is removed, if it is there.
    Remove { path: Text },
    /// The command that these words mean is done.
    Command { words: List<Text> },
}
