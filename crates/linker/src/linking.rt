//! Linking: each provider's name becomes the place of its unit.

ghost use Rattle.std.specs.Prelude.{◌≡◌, ◌<◌, ◌^◌, IfOk, length, map, nat_eq};
ghost use Rattle.indexmap.specs.IndexMap.{get};
ghost use Rattle.linker.specs.Linked.{link_of, import_at, with_places, place_from, IsPlaces};
ghost use lib.Pointwise.{pointwise};

use crate::program::{Linked, LinkedImport, LinkedUnit};
use cm_base::{Built, BuiltUnit, Import, List, NoMemory, Text};
use indexmap::IndexMap;
use std::alloc::Global;

/// The places of the units by their names; of a name that stands twice, the last one.
fn places(alloc: Global, units: &[BuiltUnit]) -> Result<IndexMap<Text, u32>, NoMemory>
    requires { length units.now < 2 ^ 32 }
    ensures { IfOk result (λ table. IsPlaces (get (pointwise nat_eq) table) units.now) }
{
    let mut table = IndexMap::new(alloc);
    let mut place = 0u32;
    for unit in units {
        table.insert(unit.unit.copy()?, place)?;
        place += 1;
    }
    Ok(table)
}

/// An import by the place that the table has for its provider, 0 where it has none.
fn link_import(table: &IndexMap<Text, u32>, import: &Import) -> Result<LinkedImport, NoMemory>
    ensures { IfOk result (λ linked. linked ≡ import_at (get (pointwise nat_eq) table.now) import.now) }
{
    Ok(LinkedImport {
        name: import.name.clone()?,
        from: table.get(&import.provider).copied().unwrap_or(0),
    })
}

/// The imports of a unit by the places of their providers.
fn link_imports(
    alloc: Global,
    table: &IndexMap<Text, u32>,
    imports: &[Import],
) -> Result<List<LinkedImport>, NoMemory>
    ensures { IfOk result (λ linked. linked ≡ map (import_at (get (pointwise nat_eq) table.now)) imports.now) }
{
    let mut linked = Vec::new(alloc);
    for import in imports {
        linked.push(link_import(table, import)?)?;
    }
    Ok(List::from_vec(linked))
}

/// A unit with the places of the units that it imports from.
fn link_unit(
    alloc: Global,
    table: &IndexMap<Text, u32>,
    unit: &BuiltUnit,
) -> Result<LinkedUnit, NoMemory>
    ensures { IfOk result (λ linked. linked ≡ with_places (get (pointwise nat_eq) table.now) unit.now) }
{
    Ok(LinkedUnit {
        unit: unit.unit.copy()?,
        imports: link_imports(alloc, table, unit.imports.as_slice())?,
        code: unit.code.copy()?,
    })
}

/// All units with the places of the units that they import from.
fn link_units(
    alloc: Global,
    table: &IndexMap<Text, u32>,
    units: &[BuiltUnit],
) -> Result<List<LinkedUnit>, NoMemory>
    ensures { IfOk result (λ linked. linked ≡ map (with_places (get (pointwise nat_eq) table.now)) units.now) }
{
    let mut linked = Vec::new(alloc);
    for unit in units {
        linked.push(link_unit(alloc, table, unit)?)?;
    }
    Ok(List::from_vec(linked))
}

/// The units of a build, linked.
#[tactic(auto, unfolding(crate::specs::Linked::link_of))]
pub fn link(alloc: Global, built: &Built) -> Result<Linked, NoMemory>
    requires { length built.now.units < 2 ^ 32 }
    ensures { IfOk result (λ linked. linked ≡ link_of built.now.units) }
{
    let units = built.units.as_slice();
    let table = places(alloc, units)?;
    Ok(Linked {
        units: link_units(alloc, &table, units)?,
    })
}
