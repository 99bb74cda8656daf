//! Numbers that are noted of numbers, in one call.

ghost use Rattle.std.specs.Prelude.{◌≡◌, ℕ, nat_eq, cond, None, Some, OnOk};
ghost use Rattle.indexmap.specs.IndexMap.{get};

use cm_base::NoMemory;
use indexmap::IndexMap;
use std::alloc::Global;

/// A number for some numbers.
#[derive(Drop)]
pub(crate) struct Notes {
    numbers: IndexMap<usize, usize>,
}

impl Notes {
    /// Nothing is noted.
    pub(crate) fn new(alloc: Global) -> Notes
        ensures { (n : ℕ) → get nat_eq result.numbers n ≡ None }
    {
        Notes {
            numbers: IndexMap::new(alloc),
        }
    }

    /// What is noted of a number.
    pub(crate) fn of(&self, number: usize) -> Option<usize>
        ensures { result ≡ get nat_eq self.now.numbers number }
    {
        match self.numbers.get(&number) {
            Some(noted) => Some(*noted),
            None => None,
        }
    }

    /// Notes a number of another.
    pub(crate) fn set(&mut self, number: usize, noted: usize) -> Result<(), NoMemory>
        ensures { OnOk result (
            (n : ℕ) → get nat_eq self.new.numbers n ≡ cond (nat_eq number n) (Some noted) (get nat_eq self.old.numbers n)
            ) }
    {
        self.numbers.insert(number, noted)?;
        Ok(())
    }
}
