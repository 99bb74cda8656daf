//! The units of a case, and the project that they make.

ghost use Rattle.std.specs.Prelude.{◌<◌};

use cm_base::{List, ModName, Namespace, NoMemory, Options, Skeleton, Text};
use cm_description::{Project, Unit, UnitBody, Wanted};
use std::alloc::Global;

/// A unit of a case: its providers by their names.
#[derive(Drop)]
pub struct CaseUnit {
    pub name: Text,
    pub options: Options,
    pub providers: List<Text>,
    pub source: Text,
}

/// The number of the unit of this name; that of no unit where there is none.
pub fn number_of(units: &[CaseUnit], name: &Text) -> u32 {
    match units.iter().position(|unit| unit.name == *name) {
        Some(at) => u32::try_from(at).unwrap_or(u32::MAX),
        None => u32::MAX,
    }
}

/// A unit of the project.
fn unit_of(unit: &CaseUnit) -> Result<Unit, NoMemory> {
    Ok(Unit {
        name: unit.name.copy()?,
        group: 0,
        body: UnitBody::Source {
            options: unit.options,
            source: unit.source.copy()?,
        },
    })
}

/// The project of the units: its groups play no part in a build.
pub fn project_of(alloc: Global, units: &[CaseUnit]) -> Result<Project, NoMemory> {
    let mut made = List::new(alloc);
    for unit in units {
        made.add(unit_of(unit)?)?;
    }
    Ok(Project {
        units: made,
        groups: List::new(alloc),
        finished: List::new(alloc),
    })
}

/// The names of the units.
pub fn names_of(alloc: Global, units: &[CaseUnit]) -> Result<List<Text>, NoMemory> {
    let mut names = List::new(alloc);
    for unit in units {
        names.add(unit.name.copy()?)?;
    }
    Ok(names)
}

/// An empty skeleton for each unit.
pub fn skeletons_of(alloc: Global, units: &[CaseUnit]) -> Result<List<Skeleton>, NoMemory> {
    let mut skeletons = List::new(alloc);
    for _ in units {
        skeletons.add(Skeleton {
            defined: List::new(alloc),
            free: List::new(alloc),
        })?;
    }
    Ok(skeletons)
}

/// The numbers of a unit's providers.
fn providers_of(alloc: Global, units: &[CaseUnit], unit: &CaseUnit) -> Result<List<u32>, NoMemory> {
    let mut providers = List::new(alloc);
    for name in unit.providers.as_slice() {
        providers.add(number_of(units, name))?;
    }
    Ok(providers)
}

/// The edges of the units.
pub fn edges_of(alloc: Global, units: &[CaseUnit]) -> Result<List<List<u32>>, NoMemory> {
    let mut edges = List::new(alloc);
    for unit in units {
        edges.add(providers_of(alloc, units, unit)?)?;
    }
    Ok(edges)
}

/// The structure `A` of each provider.
fn wanted_of(alloc: Global, providers: &[u32]) -> Result<List<Wanted>, NoMemory> {
    let mut wanted = List::new(alloc);
    for provider in providers {
        wanted.add(Wanted {
            name: ModName {
                space: Namespace::Structure,
                name: Text::from_bytes(alloc, b"A")?,
            },
            provider: *provider,
        })?;
    }
    Ok(wanted)
}

/// What the units want.
pub fn all_wanted(alloc: Global, edges: &[List<u32>]) -> Result<List<List<Wanted>>, NoMemory> {
    let mut wanted = List::new(alloc);
    for list in edges {
        wanted.add(wanted_of(alloc, list.as_slice())?)?;
    }
    Ok(wanted)
}

/// The digit of a number at a power of ten.
fn digit(number: u32, power: u32) -> u8
    requires { 0 < power }
{
    b'0' + (number / power % 10) as u8
}

/// The name of a unit by its number: `u` and five digits.
pub fn numbered_name(alloc: Global, number: u32) -> Result<Text, NoMemory> {
    let name = [
        b'u',
        digit(number, 10_000),
        digit(number, 1_000),
        digit(number, 100),
        digit(number, 10),
        digit(number, 1),
    ];
    Text::from_bytes(alloc, &name)
}

/// A unit of this number over another, with its name as its source.
pub fn numbered_unit(
    alloc: Global,
    number: u32,
    provider: Option<u32>,
) -> Result<CaseUnit, NoMemory> {
    let mut providers = List::new(alloc);
    if let Some(below) = provider {
        providers.add(numbered_name(alloc, below)?)?;
    }
    Ok(CaseUnit {
        name: numbered_name(alloc, number)?,
        options: Options {
            nobasis: false,
            opaque: false,
        },
        providers,
        source: numbered_name(alloc, number)?,
    })
}
