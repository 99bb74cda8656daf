//! Variables as they are made, and types over parts.

use cm_base::List;
use semantic_objects::{Symbol, TyId};

/// A variable as it is made: whether it is an equality variable, and whether it is rigid, so that it stands for itself
/// alone, as a written type variable does.
#[derive(Clone, Copy, Debug, PartialEq, Eq)]
pub struct Birth {
    pub marked: bool,
    pub rigid: bool,
}

/// A symbol over parts that were made before it.
#[derive(Drop)]
pub struct Node {
    pub symbol: Symbol,
    pub parts: List<TyId>,
}
