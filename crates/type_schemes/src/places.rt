//! Places that are known of numbers, in one call.

ghost use Rattle.std.specs.Prelude.{◌≡◌, ℕ, nat_eq, cond, None, Some, OnOk};
ghost use Rattle.indexmap.specs.IndexMap.{get};

use cm_base::NoMemory;
use indexmap::IndexMap;
use std::alloc::Global;

/// A place for some numbers.
#[derive(Drop)]
pub(crate) struct Places {
    places: IndexMap<usize, usize>,
}

impl Places {
    /// No number has a place.
    pub(crate) fn new(alloc: Global) -> Places
        ensures { (n : ℕ) → get nat_eq result.places n ≡ None }
    {
        Places {
            places: IndexMap::new(alloc),
        }
    }

    /// The place of a number.
    pub(crate) fn of(&self, number: usize) -> Option<usize>
        ensures { result ≡ get nat_eq self.now.places number }
    {
        match self.places.get(&number) {
            Some(place) => Some(*place),
            None => None,
        }
    }

    /// A place for a number.
    pub(crate) fn set(&mut self, number: usize, place: usize) -> Result<(), NoMemory>
        ensures { OnOk result (
            (n : ℕ) → get nat_eq self.new.places n ≡ cond (nat_eq number n) (Some place) (get nat_eq self.old.places n)
            ) }
    {
        self.places.insert(number, place)?;
        Ok(())
    }
}
