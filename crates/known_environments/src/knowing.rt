//! A table with what stands for some of its variables.

ghost use Rattle.std.specs.Prelude.{◌≡◌, IfSome};
ghost use Rattle.type_nodes.specs.Tables.{state};
ghost use Rattle.known_environments.specs.Known.{tree_for};

use crate::known::Known;
use semantic_objects::TypeTree;
use sml_types::TypeTable;
use std::marker::Model;

/// A table, and the trees of what stands for some of its variables.
#[derive(Drop)]
pub(crate) struct Knowing {
    pub(crate) table: TypeTable,
    pub(crate) known: Known,
}

impl Model for Knowing {
    ghost use Rattle.type_nodes.specs.Tables.{Table, state};
    ghost use Rattle.known_environments.specs.Known.{AreKnown};

    ghost Value = { Table };

    ghost view = { λ k. k.table };

    ghost invariant = { λ k. AreKnown (state k.table).stands k.known };
}

impl Knowing {
    /// What stands for a variable, if it is known.
    pub(crate) fn of(&self, number: usize) -> Option<&TypeTree>
        ensures { IfSome result (λ tree. tree.now ≡ tree_for (state self.now).stands number) }
    {
        self.known.of(number)
    }
}
