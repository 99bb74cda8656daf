//! The first source of a group that defines each name.

ghost use Rattle.std.specs.Prelude.{◌≡◌, IfOk};
ghost use Rattle.indexmap.specs.IndexMap.{get};
ghost use Rattle.cm_conditions.specs.Tables.{same_name};
ghost use Rattle.visibility.specs.Exports.{spots_in};
ghost use Rattle.visibility.specs.Projects.{skeleton_of};
ghost use Rattle.visibility.specs.Tables.{NotesFirst, AddsSpots, MakesDefiners};

use crate::copies::copied;
use crate::refusals::clash;
use cm_base::{Fault, List, ModName, NoMemory, Skeleton, Spot};
use cm_description::Project;
use indexmap::IndexMap;
use std::alloc::Global;

/// Notes that a unit defines a name, unless one does already. Whether the unit is the first that does.
fn note(table: &mut IndexMap<ModName, u32>, name: &ModName, unit: u32) -> Result<bool, NoMemory>
    ensures { IfOk result (λ fits.
        NotesFirst (get same_name table.old) (get same_name table.new) name.now unit fits) }
{
    match table.get(name) {
        Some(first) => Ok(*first == unit),
        None => {
            table.insert(copied(name)?, unit)?;
            Ok(true)
        }
    }
}

/// Adds the names that a unit defines, up to the first that another unit defines, which is 22.
fn add_spots(
    alloc: Global,
    table: &mut IndexMap<ModName, u32>,
    project: &Project,
    unit: u32,
    spots: &[Spot],
) -> Result<(), Fault>
    ensures { AddsSpots result (get same_name table.old) (get same_name table.new) project.now
        (spots_in unit spots.now) }
{
    for spot in spots {
        if !note(table, &spot.name, unit)? {
            return Err(Fault::Diag(clash(alloc, project, unit, spot)?));
        }
    }
    Ok(())
}

/// Adds the names that a unit's skeleton defines.
fn add_source(
    alloc: Global,
    table: &mut IndexMap<ModName, u32>,
    project: &Project,
    skeletons: &List<Skeleton>,
    unit: u32,
) -> Result<(), Fault>
    ensures { AddsSpots result (get same_name table.old) (get same_name table.new) project.now
        (spots_in unit (skeleton_of skeletons.now unit).defined) }
{
    match skeletons.get(unit as usize) {
        Some(skeleton) => add_spots(alloc, table, project, unit, skeleton.defined.as_slice()),
        None => Ok(()),
    }
}

/// The first of these units that defines each name. The first name that two of them define is 22, at the second one.
pub(crate) fn definers_of(
    alloc: Global,
    project: &Project,
    skeletons: &List<Skeleton>,
    units: &[u32],
) -> Result<IndexMap<ModName, u32>, Fault>
    ensures { MakesDefiners result project.now skeletons.now units.now }
{
    let mut table = IndexMap::new(alloc);
    for unit in units {
        add_source(alloc, &mut table, project, skeletons, *unit)?;
    }
    Ok(table)
}
