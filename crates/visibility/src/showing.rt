//! What a group exports.

ghost use Rattle.std.specs.Prelude.{nat_eq};
ghost use Rattle.indexmap.specs.IndexMap.{get};
ghost use Rattle.cm_base.specs.Calls.{Gives};
ghost use Rattle.visibility.specs.Exports.{names_in, shown_list};
ghost use Rattle.visibility.specs.Projects.{sources};
ghost use Rattle.visibility.specs.Tables.{behind_by, beneath_by, shown_below, shown_by_tables};

use crate::chosen::chosen;
use crate::defaults::default_exports;
use crate::entries::entry_exports;
use crate::group_names::GroupNames;
use crate::projects::{members, sources};
use crate::there::names_there;
use cm_base::{Def, Fault, List, Skeleton};
use cm_description::{Export, Group, Project};
use indexmap::IndexMap;
use std::alloc::Global;

/// The exports of these entries of a group's export list, or what the group shows by itself where no entry is written.
fn chosen_exports(
    alloc: Global,
    project: &Project,
    skeletons: &List<Skeleton>,
    places: &IndexMap<u32, usize>,
    below: &List<List<Export>>,
    names: &GroupNames,
    group: u32,
    found: &Group,
    numbers: &[u32],
) -> Result<List<Export>, Fault>
    ensures { Gives result (shown_list (behind_by names.now)
        (beneath_by names.now (shown_below project.now (get nat_eq places.now) below.now group)) found.now
        (names_in skeletons.now (sources project.now group)
        (shown_below project.now (get nat_eq places.now) below.now group)) numbers.now) }
{
    if found.entries.is_empty() {
        default_exports(
            alloc,
            project,
            skeletons,
            places,
            below,
            names,
            group,
            &found.file,
        )
    } else {
        entry_exports(alloc, names, &found.entries, numbers)
    }
}

/// The exports of a group of which no two sources define one name, by its export list.
pub(crate) fn shown(
    alloc: Global,
    project: &Project,
    skeletons: &List<Skeleton>,
    defs: &List<Def>,
    places: &IndexMap<u32, usize>,
    below: &List<List<Export>>,
    names: &GroupNames,
    group: u32,
    found: &Group,
) -> Result<List<Export>, Fault>
    ensures { Gives result (shown_by_tables project.now skeletons.now defs.now (get nat_eq places.now) below.now
        (behind_by names.now) (beneath_by names.now (shown_below project.now (get nat_eq places.now) below.now group))
        group found.now) }
{
    let units = sources(project, group);
    let there = names_there(
        alloc,
        skeletons,
        places,
        below,
        units,
        members(project, group),
    )?;
    let numbers = chosen(alloc, &found.export_lines, defs, &there)?;
    chosen_exports(
        alloc,
        project,
        skeletons,
        places,
        below,
        names,
        group,
        found,
        numbers.as_slice(),
    )
}
