//! The exports of a group without an entry in its export list.

ghost use Rattle.std.specs.Prelude.{◌≡◌, nat_eq, IfOk, OnOk};
ghost use Rattle.std.specs.List.Sorted.{IsStrictlySortedBy};
ghost use Rattle.std.specs.Map.{keys_of};
ghost use Rattle.indexmap.specs.IndexMap.{get};
ghost use Rattle.cm_base.specs.Calls.{Gives};
ghost use Rattle.cm_conditions.specs.Tables.{same_name};
ghost use Rattle.visibility.specs.Exports.{in_name_order, name_cmp, subgroups};
ghost use Rattle.visibility.specs.Tables.{HasNames, beneath_by, defaults_by, default_exports_by, shown_below};

use crate::copies::copied;
use crate::entries::export_of;
use crate::exported::{found_among, found_at};
use crate::found::Found;
use crate::group_names::GroupNames;
use crate::projects::{is_library, members, sources};
use crate::refusals::file_place;
use crate::there::names_there;
use cm_base::{Fault, List, ModName, NoMemory, Place, Skeleton, Text};
use cm_description::{Export, Project};
use indexmap::IndexMap;
use std::alloc::Global;
use std::collections::BTreeMap;

/// The groups among the members of a group that are no libraries.
fn subgroups_of(alloc: Global, project: &Project, group: u32) -> Result<Vec<u32>, NoMemory>
    ensures { IfOk result (λ groups. groups.items ≡ subgroups project.now group) }
{
    let members = members(project, group);
    let mut subgroups = Vec::new(alloc);
    for member in members {
        if !is_library(project, *member) {
            subgroups.push(*member)?;
        }
    }
    Ok(subgroups)
}

/// These names, each once.
fn by_name(alloc: Global, names: List<ModName>) -> Result<BTreeMap<ModName, ()>, NoMemory>
    ensures { IfOk result (λ table. HasNames table.entries names) }
{
    let mut table = BTreeMap::new(alloc);
    for name in names.into_vec() {
        table.insert(name, ())?;
    }
    Ok(table)
}

/// The names of a table, in their order.
fn listed(alloc: Global, table: BTreeMap<ModName, ()>) -> Result<List<ModName>, NoMemory>
    ensures listed { IfOk result (λ names. names ≡ keys_of table.entries) }
    ensures ordered { OnOk result (IsStrictlySortedBy name_cmp (keys_of table.entries)) }
{
    let mut names = List::new(alloc);
    for (name, _) in table {
        names.add(name)?;
    }
    Ok(names)
}

/// Names by name space and then in byte order, each once.
fn in_order(alloc: Global, names: List<ModName>) -> Result<List<ModName>, NoMemory>
    ensures { IfOk result (λ ordered. ordered ≡ in_name_order names) }
{
    listed(alloc, by_name(alloc, names)?)
}

/// The exports of these names, each from the source that defines it or else from what is found of it in the table.
fn exports_in_order(
    alloc: Global,
    names: &GroupNames,
    table: &IndexMap<ModName, Found>,
    at: &Place,
    ordered: &[ModName],
) -> Result<List<Export>, Fault>
    ensures { Gives result (defaults_by names.now (get same_name table.now) at.now ordered.now) }
{
    let mut exports = List::new(alloc);
    for name in ordered {
        let found = names.definer(name).or_else(found_at(table, name));
        exports.add(export_of(alloc, at, name, found)?)?;
    }
    Ok(exports)
}

/// The exports of a group without an entry: what its sources define, and what else its subgroups export. A name that
/// they export from two units is 23, on the group's file.
pub(crate) fn default_exports(
    alloc: Global,
    project: &Project,
    skeletons: &List<Skeleton>,
    places: &IndexMap<u32, usize>,
    below: &List<List<Export>>,
    names: &GroupNames,
    group: u32,
    file: &Text,
) -> Result<List<Export>, Fault>
    ensures { Gives result (default_exports_by project.now skeletons.now (get nat_eq places.now) below.now
        (beneath_by names.now (shown_below project.now (get nat_eq places.now) below.now group)) group file.now) }
{
    let subgroups = subgroups_of(alloc, project, group)?;
    let among = subgroups.as_slice();
    let table = found_among(alloc, places, below, among)?;
    let shown = names_there(
        alloc,
        skeletons,
        places,
        below,
        sources(project, group),
        among,
    )?;
    let ordered = in_order(alloc, shown)?;
    let at = file_place(file)?;
    exports_in_order(alloc, names, &table, &at, ordered.as_slice())
}
