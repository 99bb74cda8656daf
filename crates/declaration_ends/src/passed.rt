//! Ids that were looked at.

ghost use Rattle.std.specs.Prelude.{◌≡◌, ℕ, nat_eq, cond, false, None, Some, IfOk, OnOk};
ghost use Rattle.std.specs.Option.{is_some};
ghost use Rattle.indexmap.specs.IndexMap.{get};
ghost use Rattle.declaration_ends.specs.Leaving.{has_passed, IsAdded};

use cm_base::NoMemory;
use indexmap::IndexMap;
use semantic_objects::TyId;
use std::alloc::Global;

/// A set of numbers.
#[derive(Drop)]
pub(crate) struct Numbers {
    numbers: IndexMap<usize, usize>,
}

impl Numbers {
    /// No number.
    fn new(alloc: Global) -> Numbers
        ensures { (n : ℕ) → get nat_eq result.numbers n ≡ None }
    {
        Numbers {
            numbers: IndexMap::new(alloc),
        }
    }

    /// Whether a number is in the set.
    fn has(&self, number: usize) -> bool
        ensures { result ≡ is_some (get nat_eq self.now.numbers number) }
    {
        match self.numbers.get(&number) {
            Some(_) => true,
            None => false,
        }
    }

    /// Adds a number.
    fn add(&mut self, number: usize) -> Result<(), NoMemory>
        ensures { OnOk result (
            (n : ℕ) → get nat_eq self.new.numbers n ≡ cond (nat_eq number n) (Some number) (get nat_eq self.old.numbers n)
            ) }
    {
        self.numbers.insert(number, number)?;
        Ok(())
    }
}

/// A set of ids.
#[derive(Drop)]
pub(crate) struct Passed {
    variables: Numbers,
    nodes: Numbers,
}

impl Passed {
    /// No id.
    pub(crate) fn new(alloc: Global) -> Passed
        ensures { (id : TyId) → has_passed result id ≡ false }
    {
        Passed {
            variables: Numbers::new(alloc),
            nodes: Numbers::new(alloc),
        }
    }

    /// Adds an id, and answers whether it wasn't there.
    pub(crate) fn add(&mut self, id: TyId) -> Result<bool, NoMemory>
        ensures { IfOk result (λ added. IsAdded self.old id added self.new) }
    {
        match id {
            TyId::Variable(number) => {
                if self.variables.has(number) {
                    return Ok(false);
                }
                self.variables.add(number)?;
            }
            TyId::Made(at) => {
                if self.nodes.has(at) {
                    return Ok(false);
                }
                self.nodes.add(at)?;
            }
        }
        Ok(true)
    }
}
