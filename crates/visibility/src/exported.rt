//! The units under which members export names, found by name.

ghost use Rattle.std.specs.Prelude.{◌≡◌, nat_eq, IfOk, OnOk};
ghost use Rattle.indexmap.specs.IndexMap.{get};
ghost use Rattle.cm_conditions.specs.Tables.{same_name};
ghost use Rattle.visibility.specs.Tables.{at_name, shown_at, Notes, FindsAmong};

use crate::copies::copied;
use crate::found::Found;
use crate::places::exports_at;
use cm_base::{List, ModName, NoMemory};
use cm_description::Export;
use indexmap::IndexMap;
use std::alloc::Global;

/// What is found at a name.
pub(crate) fn found_at(table: &IndexMap<ModName, Found>, name: &ModName) -> Found
    ensures { result ≡ at_name (get same_name table.now) name.now }
{
    match table.get(name) {
        Some(found) => *found,
        None => Found::Missing,
    }
}

/// Notes the units under which one member exports names.
fn note_exports(table: &mut IndexMap<ModName, Found>, exports: &[Export]) -> Result<(), NoMemory>
    ensures { OnOk result (Notes (get same_name table.old) (get same_name table.new) exports.now) }
{
    for export in exports {
        let name = copied(&export.name)?;
        let found = found_at(table, &export.name).with_unit(export.unit);
        table.insert(name, found)?;
    }
    Ok(())
}

/// Notes what a group exports, where it has ended before.
fn note_member(
    table: &mut IndexMap<ModName, Found>,
    places: &IndexMap<u32, usize>,
    below: &List<List<Export>>,
    member: u32,
) -> Result<(), NoMemory>
    ensures { OnOk result (Notes (get same_name table.old) (get same_name table.new)
        (shown_at (get nat_eq places.now) below.now member)) }
{
    match exports_at(places, below, member) {
        Some(exports) => note_exports(table, exports.as_slice()),
        None => Ok(()),
    }
}

/// What is found of the names that these members export.
pub(crate) fn found_among(
    alloc: Global,
    places: &IndexMap<u32, usize>,
    below: &List<List<Export>>,
    among: &[u32],
) -> Result<IndexMap<ModName, Found>, NoMemory>
    ensures { IfOk result (λ table.
        FindsAmong (get same_name table) (get nat_eq places.now) below.now among.now) }
{
    let mut table = IndexMap::new(alloc);
    for member in among {
        note_member(&mut table, places, below, *member)?;
    }
    Ok(table)
}
