//! The exports of an export list, entry by entry.

ghost use Rattle.std.specs.Prelude.{◌≡◌, slice_get, OnOk};
ghost use Rattle.cm_base.specs.Calls.{Gives};
ghost use Rattle.visibility.specs.Exports.{entry_export, export_by};
ghost use Rattle.visibility.specs.ShownOnce.{ShowsAll};
ghost use Rattle.visibility.specs.Tables.{GivesItem, GivesOption, ShowsOnce, behind_by, entries_by};

use crate::copies::{copied, place_copied};
use crate::found::Found;
use crate::group_names::GroupNames;
use crate::refusals::refused;
use cm_base::{Fault, List, ModName, NoMemory, Place};
use cm_description::{Entry, Export};
use indexmap::IndexSet;
use std::alloc::Global;

/// A name with the unit that it is exported from.
#[derive(PartialEq, Eq, Hash, Drop)]
pub(crate) struct Shown {
    pub name: ModName,
    pub unit: u32,
}

/// The export of a name by what is found behind it: 25 where that is none, 23 where it is several units.
pub(crate) fn export_of(
    alloc: Global,
    at: &Place,
    name: &ModName,
    found: Found,
) -> Result<Export, Fault>
    ensures { GivesItem result (export_by at.now name.now found) }
{
    match found {
        Found::One(unit) => Ok(Export {
            name: copied(name)?,
            unit,
            hash: None,
        }),
        Found::Missing => Err(Fault::Diag(refused(alloc, 25, place_copied(at)?, name)?)),
        Found::Several => Err(Fault::Diag(refused(alloc, 23, place_copied(at)?, name)?)),
    }
}

/// Adds an export, unless it stands there already.
fn add_once(
    shown: &mut IndexSet<Shown>,
    exports: &mut List<Export>,
    export: Export,
) -> Result<(), NoMemory>
    ensures { OnOk result (ShowsOnce shown.old shown.new exports.old exports.new export) }
{
    let key = Shown {
        name: copied(&export.name)?,
        unit: export.unit,
    };
    if shown.insert(key)? {
        exports.add(export)?;
    }
    Ok(())
}

/// The export of the entry of a number; there is none behind the list.
fn entry_export(
    alloc: Global,
    names: &GroupNames,
    entries: &List<Entry>,
    number: u32,
) -> Result<Option<Export>, Fault>
    ensures { GivesOption result (entry_export (behind_by names.now) (slice_get entries.now number)) }
{
    match entries.get(number as usize) {
        Some(entry) => {
            let found = names.behind(&entry.name);
            Ok(Some(export_of(alloc, &entry.at, &entry.name, found)?))
        }
        None => Ok(None),
    }
}

/// Adds an export, if there is one, unless it stands there already.
fn add_shown(
    shown: &mut IndexSet<Shown>,
    exports: &mut List<Export>,
    export: Option<Export>,
) -> Result<(), NoMemory>
    ensures { OnOk result (ShowsAll shown.old shown.new exports.old exports.new export) }
{
    match export {
        Some(export) => add_once(shown, exports, export),
        None => Ok(()),
    }
}

/// The exports of the entries of these numbers, in this order, each at its first place.
pub(crate) fn entry_exports(
    alloc: Global,
    names: &GroupNames,
    entries: &List<Entry>,
    chosen: &[u32],
) -> Result<List<Export>, Fault>
    ensures { Gives result (entries_by names.now entries.now chosen.now) }
{
    let mut shown = IndexSet::new(alloc);
    let mut exports = List::new(alloc);
    for number in chosen {
        let export = entry_export(alloc, names, entries, *number)?;
        add_shown(&mut shown, &mut exports, export)?;
    }
    Ok(exports)
}
