//! Tables that are remembered.

ghost use Rattle.std.specs.Prelude.{◌≡◌, length};
ghost use Rattle.type_nodes.specs.Keeping.{IsHistory};

use crate::bindings::TypeBindings;
use std::marker::Model;
use std::snapshot::Snapshot;

/// A table as it stood when the mark was made.
#[derive(Drop)]
pub struct Mark {
    pub(crate) variables: usize,
    pub(crate) nodes: usize,
    pub(crate) entries: usize,
    pub(crate) past: Snapshot<TypeBindings>,
}

impl Model for Mark {
    ghost use Rattle.type_nodes.specs.Tables.{Table};
    ghost use Rattle.type_nodes.specs.Keeping.{Remembers};

    ghost Value = { Table };

    ghost view = { λ m. m.past.value };

    ghost invariant = { λ m. Remembers m.past.value m.variables m.nodes m.entries };
}

impl Mark {
    /// What held of the table then.
    pub fn is_past(&self)
        ensures { IsHistory self.now }
    {
        let _ = &self.past;
    }

    /// How many variables there were.
    pub fn variables(&self) -> usize
        ensures { result ≡ length self.now.births }
    {
        self.variables
    }

    /// How many nodes there were.
    pub fn nodes(&self) -> usize
        ensures { result ≡ length self.now.nodes }
    {
        self.nodes
    }

    /// How many entries the trail had.
    pub fn entries(&self) -> usize
        ensures { result ≡ length self.now.trail }
    {
        self.entries
    }
}
