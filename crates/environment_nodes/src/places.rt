//! Which nodes of a table were added for places of a graph.

ghost use Rattle.std.specs.Prelude.{◌≡◌, ℕ, nat_eq, cond, None, Some, IfOk, OnOk};
ghost use Rattle.environment_nodes.specs.Written.{place_in};

use cm_base::NoMemory;
use indexmap::IndexMap;
use std::alloc::Global;

/// Some places of a graph, each with the place of its node in a table.
#[derive(Drop)]
pub(crate) struct NodePlaces {
    places: IndexMap<usize, usize>,
}

impl NodePlaces {
    /// No place has a node.
    pub(crate) fn new(alloc: Global) -> NodePlaces
        ensures { (p : ℕ) → place_in result p ≡ None }
    {
        NodePlaces {
            places: IndexMap::new(alloc),
        }
    }

    /// Whether a place has a node.
    pub(crate) fn has(&self, place: usize) -> bool {
        self.places.get(&place).is_some()
    }

    /// The place of the node of a place. One that has none is refused as want of memory is.
    pub(crate) fn node_of(&self, place: usize) -> Result<usize, NoMemory>
        ensures { IfOk result (λ node. place_in self.now place ≡ Some node) }
    {
        match self.places.get(&place) {
            Some(node) => Ok(*node),
            None => Err(NoMemory),
        }
    }

    /// A node for a place.
    pub(crate) fn set(&mut self, place: usize, node: usize) -> Result<(), NoMemory>
        ensures { OnOk result (
            (p : ℕ) → place_in self.new p ≡ cond (nat_eq place p) (Some node) (place_in self.old p)
            ) }
    {
        self.places.insert(place, node)?;
        Ok(())
    }
}
