//! A row of the table.

use cm_base::{List, Text};

/// What stands before the colon of a line and behind it, in words.
#[derive(Drop)]
pub(crate) struct Row {
    pub(crate) names: List<Text>,
    pub(crate) is: List<Text>,
}
