//! Which variables a declaration may not close: those that were there when it began, and those that stand in what such
//! a one got since. The trail behind the mark tells which these are. Nodes and variables that were there at the mark
//! aren't gone into: what stands for one of these variables since is an entry of its own.

ghost use Rattle.std.specs.Prelude.{◌≡◌, ◌<◌, ◌≤◌, ◌+◌, ◌++◌, ℕ, length, IfOk, OnOk};
ghost use Rattle.type_nodes.specs.Tables.{Has, IsFrontOf, state};
ghost use Rattle.type_schemes.specs.Heads.{AreHeads};
ghost use Rattle.type_schemes.specs.Numbering.{keeps};
ghost use Rattle.type_schemes.specs.Schemes.{HaveAll, stays_since};
ghost use Rattle.type_schemes.specs.Ages.{MetNode, MetEntries, IsStepped, HasMet, HaveMet};

use crate::heads::Heads;
use crate::kept::Kept;
use crate::places::Places;
use cm_base::{List, NoMemory};
use semantic_objects::TyId;
use std::alloc::Global;
use type_nodes::{Entry, Mark, TypeBindings};

/// What was met that is younger than a mark, and how many variables and nodes there were at the mark.
#[derive(Drop)]
pub(crate) struct Young {
    pub(crate) older: usize,
    pub(crate) settled: usize,
    pub(crate) nodes: Places,
    pub(crate) variables: Places,
}

/// Ids are still to be looked at.
fn add_all(parts: &List<TyId>, ids: &mut List<TyId>) -> Result<(), NoMemory>
    ensures { OnOk result (ids.new ≡ ids.old ++ parts.now) }
{
    for part in parts.as_slice() {
        ids.add(*part)?;
    }
    Ok(())
}

impl Young {
    /// Meets a node. Its parts are to be looked at where it is young, has variables and wasn't met.
    fn meet_node(
        &mut self,
        table: &TypeBindings,
        at: usize,
        ids: &mut List<TyId>,
    ) -> Result<(), NoMemory>
        requires { at < length table.now.nodes }
        ensures { OnOk result (MetNode table.now at self.old self.new ids.old ids.new) }
    {
        if at < self.settled || !table.facts(at).variable {
            return Ok(());
        }
        match self.nodes.of(at) {
            Some(_) => Ok(()),
            None => {
                self.nodes.set(at, at)?;
                Ok(add_all(&table.node(at).parts, ids)?)
            }
        }
    }

    /// Looks at an id.
    fn step(
        &mut self,
        table: &TypeBindings,
        heads: &mut Heads,
        id: TyId,
        ids: &mut List<TyId>,
    ) -> Result<(), NoMemory>
        requires has { Has table.now id }
        requires heads { AreHeads table.now heads.old }
        ensures step { OnOk result (IsStepped table.now id self.old self.new ids.old ids.new) }
        ensures heads { OnOk result (AreHeads table.now heads.new) }
    {
        table.is_kept();
        let head = heads.find(table, id)?;
        match head {
            TyId::Variable(variable) => {
                if variable < self.older {
                    Ok(())
                } else {
                    Ok(self.variables.set(variable, variable)?)
                }
            }
            TyId::Made(at) => Ok(self.meet_node(table, at, ids)?),
        }
    }

    /// Looks at an id and at all that stands below it. Each node is gone through once, as each step between variables.
    fn meet(
        &mut self,
        table: &TypeBindings,
        alloc: Global,
        heads: &mut Heads,
        id: TyId,
    ) -> Result<(), NoMemory>
        requires has { Has table.now id }
        requires heads { AreHeads table.now heads.old }
        ensures met { OnOk result (HasMet table.now id self.old self.new) }
        ensures heads { OnOk result (AreHeads table.now heads.new) }
    {
        let mut ids = List::new(alloc);
        ids.add(id)?;
        while let Some(next) = ids.pop() {
            self.step(table, heads, next, &mut ids)?;
        }
        Ok(())
    }

    /// Looks at some ids.
    fn meet_all(
        &mut self,
        table: &TypeBindings,
        alloc: Global,
        heads: &mut Heads,
        ids: &[TyId],
    ) -> Result<(), NoMemory>
        requires have { HaveAll table.now ids.now }
        requires heads { AreHeads table.now heads.old }
        ensures { OnOk result (HaveMet table.now ids.now (length ids.now) self.old self.new) }
    {
        for id in ids {
            self.meet(table, alloc, heads, *id)?;
        }
        Ok(())
    }

    /// Looks at what an entry of the trail put in for an older variable.
    fn meet_entry(
        &mut self,
        table: &TypeBindings,
        alloc: Global,
        heads: &mut Heads,
        at: usize,
    ) -> Result<(), NoMemory>
        requires within { at < length table.now.trail }
        requires heads { AreHeads table.now heads.old }
        ensures met { OnOk result (MetEntries table.now at (at + 1) self.old self.new) }
        ensures heads { OnOk result (AreHeads table.now heads.new) }
    {
        table.is_kept();
        match table.entry(at) {
            Entry::Bound(variable, to) => {
                if variable < self.older {
                    Ok(self.meet(table, alloc, heads, to)?)
                } else {
                    Ok(())
                }
            }
            Entry::Marked(_) => Ok(()),
        }
    }

    /// Looks at what the trail from an entry on put in for older variables.
    fn meet_entries(
        &mut self,
        table: &TypeBindings,
        alloc: Global,
        heads: &mut Heads,
        from: usize,
    ) -> Result<(), NoMemory>
        requires within { from ≤ length table.now.trail }
        requires heads { AreHeads table.now heads.old }
        ensures met { OnOk result (MetEntries table.now from (length table.now.trail) self.old self.new) }
        ensures heads { OnOk result (AreHeads table.now heads.new) }
    {
        for at in from..table.entries() {
            self.meet_entry(table, alloc, heads, at)?;
        }
        Ok(())
    }
}

/// The variables that a declaration may not close which began at a mark, and those that stand in what some ids stand
/// for. It takes as long as what was made since the mark is large.
pub(crate) fn kept_since(
    table: &TypeBindings,
    alloc: Global,
    unclosed: &[TyId],
    since: &Mark,
) -> Result<Kept, NoMemory>
    requires unclosed { HaveAll table.now unclosed.now }
    requires front { IsFrontOf since.now table.now }
    ensures { IfOk result (λ kept. (v : ℕ)
        → keeps kept v ≡ stays_since table.now (state since.now).next unclosed.now v) }
{
    table.is_kept();
    since.is_past();
    let mut young = Young {
        older: since.variables(),
        settled: since.nodes(),
        nodes: Places::new(alloc),
        variables: Places::new(alloc),
    };
    let mut heads = Heads::new(alloc);
    young.meet_entries(table, alloc, &mut heads, since.entries())?;
    young.meet_all(table, alloc, &mut heads, unclosed)?;
    Ok(Kept {
        older: young.older,
        variables: young.variables,
    })
}
