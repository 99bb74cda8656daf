//! What holds of every table, and types as they were made.

ghost use Rattle.std.specs.Prelude.{◌<◌, length};
ghost use Rattle.type_nodes.specs.Tables.{Has};
ghost use Rattle.type_nodes.specs.Keeping.{IsKept};
ghost use Rattle.sml_types.specs.Sides.{IsSides};

use crate::table::TypeTable;
use semantic_objects::{Symbol, TyId};
use type_nodes::TypeBindings;

/// The two sides of a node that is a function type.
fn sides_at(table: &TypeBindings, at: usize) -> Option<(TyId, TyId)>
    requires { at < length table.now.nodes }
    ensures { IsSides table.now (TyId.Made at) result }
{
    table.is_kept();
    let node = table.node(at);
    match &node.symbol {
        Symbol::Arrow => match node.parts.get(0) {
            Some(from) => match node.parts.get(1) {
                Some(to) => Some((*from, *to)),
                None => None,
            },
            None => None,
        },
        Symbol::Record(_) => None,
        Symbol::Name(_) => None,
    }
}

impl TypeTable {
    /// What holds of every table, for the proofs of callers.
    pub fn is_kept(&self)
        ensures { IsKept self.now }
    {
        self.bindings.is_kept();
    }

    /// The two sides of a type that was made as a function type. What was put in for variables isn't looked at.
    pub fn sides(&self, id: TyId) -> Option<(TyId, TyId)>
        requires { Has self.now id }
        ensures { IsSides self.now id result }
    {
        match id {
            TyId::Variable(_) => None,
            TyId::Made(at) => sides_at(&self.bindings, at),
        }
    }
}
