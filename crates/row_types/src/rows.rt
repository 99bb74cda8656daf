//! The types that the first rows of a table are.

ghost use Rattle.std.specs.Prelude.{ℕ, List, [], IfOk};
ghost use Rattle.row_types.specs.Told.{AreTold, Stands, AllOrLacks};

use cm_base::{List, NoMemory};
use semantic_objects::TypeNode;
use std::alloc::Global;

/// Of each of the first rows whether it is a type, and a node over the rows of its parts at the same place. Where a row
/// is no type, a variable stands there, on which nothing rests.
#[derive(Drop)]
pub struct TypeRows {
    pub nodes: List<TypeNode>,
    pub told: List<bool>,
}

impl TypeRows {
    /// No rows.
    #[tactic(auto, using(crate::proofs::Added::none_told))]
    pub fn new(alloc: Global) -> TypeRows
        ensures { (home : List ℕ) → AreTold home [] result }
    {
        TypeRows {
            nodes: List::new(alloc),
            told: List::new(alloc),
        }
    }

    /// Whether the row at a place is a type. A place past the end is refused as want of memory is.
    pub fn is_type(&self, place: usize) -> Result<bool, NoMemory>
        ensures { IfOk result (Stands self.now place) }
    {
        match self.told.get(place) {
            Some(is) => Ok(*is),
            None => Err(NoMemory),
        }
    }
}

/// Whether the rows at some places are types.
pub(crate) fn are_types(rows: &TypeRows, places: &[usize]) -> Result<bool, NoMemory>
    ensures { IfOk result (AllOrLacks rows.now places.now) }
{
    for place in places {
        if !rows.is_type(*place)? {
            return Ok(false);
        }
    }
    Ok(true)
}
