//! What stands for some variables of a table, as trees.

ghost use Rattle.std.specs.Prelude.{◌≡◌, IfSome, OnOk};
ghost use Rattle.unification.specs.Types.{Substitution};
ghost use Rattle.known_environments.specs.Known.{AreKnown, tree_for};

use cm_base::{List, NoMemory};
use environment_walks::Images;
use semantic_objects::TypeTree;
use std::alloc::Global;

/// For some variables, by their numbers in a table, the tree of what stands for each.
#[derive(Drop)]
pub(crate) struct Known {
    pub(crate) places: Images,
    pub(crate) trees: List<TypeTree>,
}

impl Known {
    /// Nothing is known.
    pub(crate) fn new(alloc: Global) -> Known
        ensures { (s : Substitution) → AreKnown s result }
    {
        Known {
            places: Images::new(alloc),
            trees: List::new(alloc),
        }
    }

    /// What stands for a variable, if it is known.
    pub(crate) fn of(&self, number: usize) -> Option<&TypeTree>
        ensures { (s : Substitution) → AreKnown s self.now → IfSome result (λ tree. tree.now ≡ tree_for s number) }
    {
        match self.places.of(number) {
            Some(place) => match self.trees.get(place) {
                Some(tree) => Some(tree),
                None => None,
            },
            None => None,
        }
    }

    /// A variable becomes known.
    pub(crate) fn add(&mut self, number: usize, tree: TypeTree) -> Result<(), NoMemory>
        ensures { OnOk result ((s : Substitution) → AreKnown s self.old → tree ≡ tree_for s number
            → AreKnown s self.new) }
    {
        let place = self.trees.len();
        self.places.set(number, place)?;
        self.trees.add(tree)?;
        Ok(())
    }
}
