//! Definitions and modules, found by their names.

ghost use Rattle.std.specs.Prelude.{◌≡◌, IfOk, OnOk, List, ℕ, nat_eq, cond, Some, ◌||◌};
ghost use Rattle.indexmap.specs.IndexMap.{get};
ghost use Rattle.cm_base.specs.declared.record.ModName.{ModName};
ghost use Rattle.cm_conditions.specs.Values.{def_of, has_module};
ghost use Rattle.cm_conditions.specs.Tables.{AreOf, table_def, table_module, has_name, same_name};
ghost use lib.Pointwise.{pointwise};

use cm_base::{Def, ModName, NoMemory, Text};
use indexmap::{IndexMap, IndexSet};
use std::alloc::Global;

/// What conditions ask for: the values of the names that are defined, and the modules that are there.
#[derive(Drop)]
pub(crate) struct Names {
    pub defs: IndexMap<Text, i64>,
    pub modules: IndexSet<ModName>,
}

/// Notes the value of a name, whatever it was before.
fn note(table: &mut IndexMap<Text, i64>, def: &Def) -> Result<(), NoMemory>
    ensures { OnOk result ((name : List ℕ) → get (pointwise nat_eq) table.new name
        ≡ cond (pointwise nat_eq def.now.name name) (Some def.now.value) (get (pointwise nat_eq) table.old name)) }
{
    table.insert(def.name.copy()?, def.value)?;
    Ok(())
}

/// The values of names; of a name that is defined twice, the first.
fn defs_of(alloc: Global, defs: &[Def]) -> Result<IndexMap<Text, i64>, NoMemory>
    ensures { IfOk result (λ table. (name : List ℕ) → get (pointwise nat_eq) table name ≡ def_of defs.now name) }
{
    let mut table = IndexMap::new(alloc);
    let mut rest = defs;
    while let Some((def, before)) = rest.split_last() {
        note(&mut table, def)?;
        rest = before;
    }
    Ok(table)
}

/// Another module name of the same name space and text.
fn copied(name: &ModName) -> Result<ModName, NoMemory>
    ensures { IfOk result (λ copy. copy ≡ name.now) }
{
    Ok(name.clone()?)
}

/// The set of these modules.
fn modules_of(alloc: Global, modules: &[ModName]) -> Result<IndexSet<ModName>, NoMemory>
    ensures { IfOk result (λ set. (name : ModName) → has_name set name ≡ has_module modules.now name) }
{
    let mut set = IndexSet::new(alloc);
    for name in modules {
        set.insert(copied(name)?)?;
    }
    Ok(set)
}

impl Names {
    /// These definitions and these modules.
    pub fn of(alloc: Global, defs: &[Def], modules: &[ModName]) -> Result<Names, NoMemory>
        ensures { IfOk result (λ names. AreOf names defs.now modules.now) }
    {
        Ok(Names {
            defs: defs_of(alloc, defs)?,
            modules: modules_of(alloc, modules)?,
        })
    }

    /// The value that a name is defined to have, if it is.
    pub fn def(&self, name: &Text) -> Option<i64>
        ensures { result ≡ table_def self.now name.now }
    {
        self.defs.get(name).copied()
    }

    /// Whether a module is there.
    pub fn has(&self, wanted: &ModName) -> bool
        ensures { result ≡ table_module self.now wanted.now }
    {
        self.modules.contains(wanted)
    }
}
