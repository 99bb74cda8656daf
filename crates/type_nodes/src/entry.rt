//! What happens to a variable after it was made.

use semantic_objects::TyId;

/// A variable gets a type, or is marked as an equality variable.
#[derive(Clone, Copy, Debug, PartialEq, Eq)]
pub enum Entry {
    Bound(usize, TyId),
    Marked(usize),
}
