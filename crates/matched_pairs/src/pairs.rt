//! A set of pairs of places.

ghost use Rattle.std.specs.Prelude.{◌≡◌, ℕ, false, OnOk, OnErr};
ghost use Rattle.matched_pairs.specs.Pairs.{has_pair, HasOneMore};

use cm_base::NoMemory;
use indexmap::IndexSet;
use std::alloc::Global;

/// A place at which something is specified, and one at which something is found.
#[derive(PartialEq, Eq, Hash, Drop)]
pub(crate) struct Pair {
    pub(crate) specified: usize,
    pub(crate) found: usize,
}

/// Some pairs of places.
#[derive(Drop)]
pub struct Pairs {
    pub(crate) pairs: IndexSet<Pair>,
}

impl Pairs {
    /// No pair.
    pub fn new(alloc: Global) -> Pairs
        ensures { (p q : ℕ) → has_pair result p q ≡ false }
    {
        Pairs {
            pairs: IndexSet::new(alloc),
        }
    }

    /// Whether two places are one of them.
    pub fn has(&self, specified: usize, found: usize) -> bool
        ensures { result ≡ has_pair self.now specified found }
    {
        self.pairs.contains(&Pair { specified, found })
    }

    /// Two places are one of them from now on. After want of memory nothing is changed.
    pub fn add(&mut self, specified: usize, found: usize) -> Result<(), NoMemory>
        ensures ok { OnOk result (HasOneMore self.old self.new specified found) }
        ensures err { OnErr result ((p q : ℕ) → has_pair self.new p q ≡ has_pair self.old p q) }
    {
        self.pairs.insert(Pair { specified, found })?;
        Ok(())
    }
}
