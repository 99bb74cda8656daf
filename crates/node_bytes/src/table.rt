//! Nodes in a table: each names its parts by their places, so that a part may stand in any number of nodes.

ghost use Rattle.std.specs.Prelude.{◌++◌};
ghost use Rattle.std.specs.Cmp.{partial_equiv_from_equiv};
ghost use Rattle.std.specs.Hash as fed;
ghost use Rattle.node_bytes.specs.Rows.{same_row, rows_equivalent, rows_fed_alike};
ghost use Rattle.node_bytes.specs.contracts.table.ItemHash.TheImpl as hashed;

use cm_base::{List, Text};
use std::hash::{Hash, Hasher};

/// What stands in a node of a table: a piece of bytes, or a part by its place.
#[derive(Debug, PartialEq, Eq, Hash, Drop)]
pub enum Item {
    Piece(Text),
    Part(usize),
}

/// A node of a table: its tag, and what stands in it.
#[derive(Debug, Drop)]
pub struct Row {
    pub tag: u8,
    pub items: List<Item>,
}

impl PartialEq for Row {
    ghost eq = { same_row };

    ghost laws = { partial_equiv_from_equiv rows_equivalent };

    fn eq(&self, other: &Row) -> bool {
        self.tag == other.tag && self.items.as_slice() == other.items.as_slice()
    }
}

impl Eq for Row {
    ghost laws = { rows_equivalent };
}

impl Hash for Row {
    ghost hash_input = { λ x. fed.u8 x.tag ++ fed.slice (hashed.ghosts).hash_input x.items };

    ghost respects_eq = { (rows_fed_alike (λ x. fed.u8 x.tag ++ fed.slice (hashed.ghosts).hash_input x.items)).fed };

    fn hash<H: Hasher>(&self, state: &mut H) {
        self.tag.hash(state);
        self.items.as_slice().hash(state);
    }
}
