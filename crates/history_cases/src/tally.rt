//! How often each of some things came.

use cm_base::NoMemory;
use std::alloc::Global;

/// How often each of some things came, by its word.
#[derive(Drop)]
pub struct Tally {
    counts: Vec<(&'static [u8], u32)>,
}

impl Tally {
    /// Nothing came yet.
    pub fn new(alloc: Global) -> Tally {
        Tally {
            counts: Vec::new(alloc),
        }
    }

    /// Counts one more.
    pub fn count(&mut self, word: &'static [u8]) -> Result<(), NoMemory> {
        for (known, count) in self.counts.as_mut_slice() {
            if *known == word {
                *count = count.saturating_add(1);
                return Ok(());
            }
        }
        self.counts.push((word, 1))?;
        Ok(())
    }

    /// How many came.
    pub fn of(&self, word: &[u8]) -> u32 {
        for (known, count) in self.counts.as_slice() {
            if *known == word {
                return *count;
            }
        }
        0
    }
}
