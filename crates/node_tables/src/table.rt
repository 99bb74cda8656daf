//! A table that keeps each node once.

ghost use Rattle.std.specs.Prelude.{◌≡◌, [], ◌<◌, length, get_or, IfOk, OnErr};
ghost use Rattle.node_bytes.specs.Nodes.{Node};
ghost use Rattle.node_bytes.specs.Formats.{Format};
ghost use Rattle.node_bytes.specs.Spelling.{spelling};
ghost use Rattle.node_bytes.specs.Tables.{nowhere, content_of, Writes};
ghost use Rattle.node_tables.specs.Tables.{HasParts, Adds};

use cm_base::{List, NoMemory, Text};
use indexmap::IndexSet;
use node_bytes::{Item, Row, WriteFault, write_node};
use std::alloc::Global;
use std::marker::Model;

/// Nodes, each of which stands once. Contracts see them as whole nodes, by their places.
#[derive(Drop)]
pub struct NodeTable {
    rows: IndexSet<Row>,
}

impl Model for NodeTable {
    ghost use Rattle.std.specs.Prelude.{List};
    ghost use Rattle.node_bytes.specs.Nodes.{Node};
    ghost use Rattle.node_tables.specs.Codes.{nodes_code};

    ghost Value = { List Node };

    ghost coded = { nodes_code };

    ghost use Rattle.node_bytes.specs.Tables.{table_nodes, AreRows};

    ghost view = { λ t. table_nodes t.rows.keys };

    ghost invariant = { λ t. AreRows t.rows.keys };
}

impl NodeTable {
    /// A table without nodes.
    pub fn new(alloc: Global) -> NodeTable
        ensures { result ≡ [] }
    {
        NodeTable {
            rows: IndexSet::new(alloc),
        }
    }

    /// How many nodes there are.
    pub fn len(&self) -> usize
        ensures { result ≡ length self.now }
    {
        self.rows.as_slice().len()
    }

    /// The place of the node with this tag and these items, each part of which is a place of the table. It is added
    /// where it doesn't stand there yet.
    pub fn add(&mut self, tag: u8, items: List<Item>) -> Result<usize, NoMemory>
        requires { HasParts (length self.old) items }
        ensures ok { IfOk result (Adds self.old self.new (Node.node tag (content_of self.old items))) }
        ensures err { OnErr result (self.new ≡ self.old) }
    {
        let (place, _) = self.rows.insert_full(Row { tag, items })?;
        Ok(place)
    }

    /// The spelling of the node at a place. It is refused exactly where it is longer than the limit.
    pub fn write(
        &self,
        alloc: Global,
        root: usize,
        back: u8,
        limit: u32,
    ) -> Result<Text, WriteFault>
        requires { root < length self.now }
        ensures { (f : Format) → f.back ≡ back → Writes limit (spelling f (get_or self.now root nowhere)) result }
    {
        write_node(alloc, self.rows.as_slice(), root, back, limit)
    }
}
