//! Schemes as a table has them.

use cm_base::List;
use semantic_objects::{Symbol, TyId};

/// A part of a type that a scheme closes: an id of the table, in whose type no variable of the scheme stands, such a
/// variable by its number, or one of the scheme's nodes, by its place.
#[derive(Clone, Copy, Debug, PartialEq, Eq)]
pub enum OpenPart {
    Closed(TyId),
    Bound(u32),
    Open(usize),
}

/// A symbol over parts, in one of which a variable of the scheme stands.
#[derive(Drop)]
pub struct OpenNode {
    pub symbol: Symbol,
    pub parts: List<OpenPart>,
}

/// The type of a scheme inside a table: the nodes in which variables of the scheme stand, each behind those of its
/// parts, and what the type is. The Definition of Standard ML (Revised), section 4.5.
#[derive(Drop)]
pub struct TableScheme {
    pub nodes: List<OpenNode>,
    pub root: OpenPart,
}
