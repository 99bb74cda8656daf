//! All names of a project.

ghost use Rattle.std.specs.Prelude.{◌≡◌, [], length, map, nat_eq, slice_set, IfOk};
ghost use Rattle.indexmap.specs.IndexMap.{get};
ghost use Rattle.cm_base.specs.Calls.{Gives};
ghost use Rattle.visibility.specs.Naming.{names_of};
ghost use Rattle.visibility.specs.Tables.{ArePlaces, AddsGroup, AddsImports, AddsRead, imports_by_tables};

use crate::copies::exports_copied;
use crate::group_names::GroupNames;
use crate::importing::imports_by;
use crate::names::Names;
use crate::places::places_of;
use crate::showing::shown;
use cm_base::{Def, Fault, List, NoMemory, Skeleton};
use cm_description::{Export, Group, Project, Unit, Wanted};
use indexmap::IndexMap;
use std::alloc::Global;

/// No imports of each of these units.
fn without_imports(alloc: Global, units: &[Unit]) -> Result<Vec<List<Wanted>>, NoMemory>
    ensures { IfOk result (λ wanted. wanted.items ≡ map (λ unit. []) units.now) }
{
    let mut wanted = Vec::new(alloc);
    for _unit in units {
        wanted.push(List::new(alloc))?;
    }
    Ok(wanted)
}

/// Sets the imports of units, by the names of their group.
fn import_units(
    alloc: Global,
    project: &Project,
    skeletons: &List<Skeleton>,
    names: &GroupNames,
    units: &[u32],
    wanted: &mut Vec<List<Wanted>>,
) -> Result<(), Fault>
    ensures { AddsImports result (imports_by_tables project.now skeletons.now names.now) units.now
        wanted.old.items wanted.new.items }
{
    for unit in units {
        let list = imports_by(alloc, project, skeletons, names, *unit)?;
        set(wanted, *unit, list);
    }
    Ok(())
}

/// Sets the imports of a unit.
fn set(wanted: &mut Vec<List<Wanted>>, unit: u32, list: List<Wanted>)
    ensures { wanted.new.items ≡ slice_set wanted.old.items unit list }
{
    if (unit as usize) < wanted.len() {
        wanted[unit as usize] = list;
    }
}

/// The exports of a group that was read from its description, and then the imports of its units, which are set.
fn add_read(
    alloc: Global,
    project: &Project,
    skeletons: &List<Skeleton>,
    defs: &List<Def>,
    places: &IndexMap<u32, usize>,
    below: &List<List<Export>>,
    group: u32,
    found: &Group,
    wanted: &mut Vec<List<Wanted>>,
) -> Result<List<Export>, Fault>
    ensures { AddsRead result project.now skeletons.now defs.now (get nat_eq places.now) below.now group found.now
        wanted.old.items wanted.new.items }
{
    let names = GroupNames::of(alloc, project, skeletons, places, below, group)?;
    let exports = shown(
        alloc, project, skeletons, defs, places, below, &names, group, found,
    )?;
    import_units(
        alloc,
        project,
        skeletons,
        &names,
        found.units.as_slice(),
        wanted,
    )?;
    Ok(exports)
}

/// The exports of a group, and then the imports of its units, which are set. A frozen library's are recorded.
fn add_group(
    alloc: Global,
    project: &Project,
    skeletons: &List<Skeleton>,
    defs: &List<Def>,
    places: &IndexMap<u32, usize>,
    below: &List<List<Export>>,
    group: u32,
    wanted: &mut Vec<List<Wanted>>,
) -> Result<List<Export>, Fault>
    requires { ArePlaces (get nat_eq places.now) project.now.finished }
    ensures { AddsGroup result project.now skeletons.now defs.now below.now group wanted.old.items wanted.new.items }
{
    let Some(found) = project.groups.get(group as usize) else {
        return Ok(List::new(alloc));
    };
    match &found.thawed {
        Some(recorded) => Ok(exports_copied(alloc, recorded.as_slice())?),
        None => add_read(
            alloc, project, skeletons, defs, places, below, group, found, wanted,
        ),
    }
}

/// All names of a project: the exports of each group in the order in which the groups ended, and the imports of each
/// unit. The groups are gone through in that order, each first for its exports and then for the imports of its units,
/// and the first refusal is the answer. Each unit has a skeleton. The tables of a group are made once, so the time is
/// linear in the skeletons and in the exports of each group's members, but for the sorting of names that groups without
/// an entry export.
pub fn all_names(
    alloc: Global,
    project: &Project,
    skeletons: &List<Skeleton>,
    defs: &List<Def>,
) -> Result<Names, Fault>
    requires counted { length skeletons.now ≡ length project.now.units }
    ensures { Gives result (names_of project.now skeletons.now defs.now) }
{
    let places = places_of(alloc, project.finished.as_slice())?;
    let mut exports = List::new(alloc);
    let mut wanted = without_imports(alloc, project.units.as_slice())?;
    for group in project.finished.as_slice() {
        let these = add_group(
            alloc,
            project,
            skeletons,
            defs,
            &places,
            &exports,
            *group,
            &mut wanted,
        )?;
        exports.add(these)?;
    }
    Ok(Names {
        exports,
        wanted: List::from_vec(wanted),
    })
}
