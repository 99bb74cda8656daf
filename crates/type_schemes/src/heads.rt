//! What variables come to, kept in one call, so that each step between variables is gone once in it.

ghost use Rattle.std.specs.Prelude.{◌≡◌, ℕ, nat_eq, cond, Some, None, IfOk, OnOk};
ghost use Rattle.indexmap.specs.IndexMap.{get};
ghost use Rattle.type_nodes.specs.Tables.{Table, Has};
ghost use Rattle.type_schemes.specs.Heads.{AreHeads, IsHeadOf};

use cm_base::NoMemory;
use indexmap::IndexMap;
use semantic_objects::TyId;
use std::alloc::Global;
use type_nodes::TypeBindings;

/// What some variables come to.
#[derive(Drop)]
pub(crate) struct Heads {
    heads: IndexMap<usize, TyId>,
}

impl Heads {
    /// Nothing is known.
    pub(crate) fn new(alloc: Global) -> Heads
        ensures { (t : Table) → AreHeads t result }
    {
        Heads {
            heads: IndexMap::new(alloc),
        }
    }

    /// What a variable comes to, if that is known.
    fn known(&self, variable: usize) -> Option<TyId>
        ensures { result ≡ get nat_eq self.now.heads variable }
    {
        match self.heads.get(&variable) {
            Some(head) => Some(*head),
            None => None,
        }
    }

    /// What a variable comes to is known from now on.
    fn set(&mut self, variable: usize, head: TyId) -> Result<(), NoMemory>
        ensures { OnOk result (
            (n : ℕ) → get nat_eq self.new.heads n ≡ cond (nat_eq variable n) (Some head) (get nat_eq self.old.heads n)
            ) }
    {
        self.heads.insert(variable, head)?;
        Ok(())
    }

    /// The variable that nothing stands for, or the node, that an id comes to.
    pub(crate) fn head_of(&self, table: &TypeBindings, id: TyId) -> TyId
        requires has { Has table.now id }
        requires heads { AreHeads table.now self.now }
        ensures { IsHeadOf table.now id result }
    {
        let mut at = id;
        while let TyId::Variable(variable) = at {
            match self.known(variable) {
                Some(head) => return head,
                None => match table.link(variable) {
                    Some(to) => at = to,
                    None => return at,
                },
            }
        }
        at
    }

    /// What the variables on the way from an id come to is known from now on.
    fn keep(&mut self, table: &TypeBindings, id: TyId, head: TyId) -> Result<(), NoMemory>
        requires has { Has table.now id }
        requires head { IsHeadOf table.now id head }
        requires heads { AreHeads table.now self.old }
        ensures { OnOk result (AreHeads table.now self.new) }
    {
        let mut at = id;
        while let TyId::Variable(variable) = at {
            match self.known(variable) {
                Some(_) => return Ok(()),
                None => match table.link(variable) {
                    Some(to) => {
                        self.set(variable, head)?;
                        at = to;
                    }
                    None => return Ok(()),
                },
            }
        }
        Ok(())
    }

    /// The same as `head_of`, and it is known at once from now on.
    pub(crate) fn find(&mut self, table: &TypeBindings, id: TyId) -> Result<TyId, NoMemory>
        requires has { Has table.now id }
        requires heads { AreHeads table.now self.old }
        ensures head { IfOk result (IsHeadOf table.now id) }
        ensures heads { OnOk result (AreHeads table.now self.new) }
    {
        let head = self.head_of(table, id);
        self.keep(table, id, head)?;
        Ok(head)
    }
}
