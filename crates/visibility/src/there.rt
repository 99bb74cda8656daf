//! The names that sources define and members export, as a list.

ghost use Rattle.std.specs.Prelude.{◌≡◌, nat_eq, ◌++◌, map, IfOk, OnOk};
ghost use Rattle.std.specs.List.{flat_map};
ghost use Rattle.indexmap.specs.IndexMap.{get};
ghost use Rattle.cm_base.specs.declared.record.Spot.{Spot};
ghost use Rattle.cm_description.specs.declared.loaded.Export.{Export};
ghost use Rattle.visibility.specs.Exports.{names_in};
ghost use Rattle.visibility.specs.Projects.{defined_by};
ghost use Rattle.visibility.specs.Tables.{shown_at, shown_among};

use crate::copies::copied;
use crate::places::exports_at;
use cm_base::{List, ModName, NoMemory, Skeleton, Spot};
use cm_description::Export;
use indexmap::IndexMap;
use std::alloc::Global;

/// Adds the names of spots.
fn add_spots(names: &mut List<ModName>, spots: &[Spot]) -> Result<(), NoMemory>
    ensures { OnOk result (names.new ≡ names.old ++ map (λ (spot : Spot). spot.name) spots.now) }
{
    for spot in spots {
        names.add(copied(&spot.name)?)?;
    }
    Ok(())
}

/// Adds the names that a unit defines.
fn add_source(
    names: &mut List<ModName>,
    skeletons: &List<Skeleton>,
    unit: u32,
) -> Result<(), NoMemory>
    ensures { OnOk result (names.new ≡ names.old ++ defined_by skeletons.now unit) }
{
    match skeletons.get(unit as usize) {
        Some(skeleton) => add_spots(names, skeleton.defined.as_slice()),
        None => Ok(()),
    }
}

/// Adds the names of exports.
fn add_exports(names: &mut List<ModName>, exports: &[Export]) -> Result<(), NoMemory>
    ensures { OnOk result (names.new ≡ names.old ++ map (λ (e : Export). e.name) exports.now) }
{
    for export in exports {
        names.add(copied(&export.name)?)?;
    }
    Ok(())
}

/// Adds the names that a group exports, where it has ended before.
fn add_member(
    names: &mut List<ModName>,
    places: &IndexMap<u32, usize>,
    below: &List<List<Export>>,
    member: u32,
) -> Result<(), NoMemory>
    ensures { OnOk result (names.new ≡ names.old
        ++ map (λ (e : Export). e.name) (shown_at (get nat_eq places.now) below.now member)) }
{
    match exports_at(places, below, member) {
        Some(exports) => add_exports(names, exports.as_slice()),
        None => Ok(()),
    }
}

/// The names that these units define.
fn names_defined(
    alloc: Global,
    skeletons: &List<Skeleton>,
    units: &[u32],
) -> Result<List<ModName>, NoMemory>
    ensures { IfOk result (λ names. names ≡ flat_map (defined_by skeletons.now) units.now) }
{
    let mut names = List::new(alloc);
    for unit in units {
        add_source(&mut names, skeletons, *unit)?;
    }
    Ok(names)
}

/// The names that these units define, and those that these members export.
pub(crate) fn names_there(
    alloc: Global,
    skeletons: &List<Skeleton>,
    places: &IndexMap<u32, usize>,
    below: &List<List<Export>>,
    units: &[u32],
    among: &[u32],
) -> Result<List<ModName>, NoMemory>
    ensures { IfOk result (λ names. names ≡ names_in skeletons.now units.now
        (shown_among (get nat_eq places.now) below.now among.now)) }
{
    let mut names = names_defined(alloc, skeletons, units)?;
    for member in among {
        add_member(&mut names, places, below, *member)?;
    }
    Ok(names)
}
