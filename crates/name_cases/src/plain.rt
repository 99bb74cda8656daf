//! All names of a project as a plain program finds them: for each name it goes over the lists of members, and it keeps
//! no table.

use crate::building::Built;
use cm_base::{Diag, Fault, List, ModName, Namespace, NoMemory, Place, Skeleton, Spot, Text};
use cm_conditions::{select, space_word};
use cm_description::{Entry, Export, Group, Project, UnitBody, Wanted};
use std::alloc::Global;
use visibility::Names;

/// Another name of the same text.
fn copied(name: &ModName) -> Result<ModName, NoMemory> {
    Ok(name.clone()?)
}

/// Whether a unit defines a name.
fn defines(skeletons: &List<Skeleton>, unit: u32, name: &ModName) -> bool {
    let Some(skeleton) = skeletons.get(unit as usize) else {
        return false;
    };
    for spot in skeleton.defined.as_slice() {
        if spot.name == *name {
            return true;
        }
    }
    false
}

/// Whether a number is among these.
fn has(numbers: &[u32], number: u32) -> bool {
    for other in numbers {
        if *other == number {
            return true;
        }
    }
    false
}

/// Adds a unit, unless it is there.
fn add_once(units: &mut Vec<u32>, unit: u32) -> Result<(), NoMemory> {
    if !has(units.as_slice(), unit) {
        units.push(unit)?;
    }
    Ok(())
}

/// The sources of a group that define a name, other than one of them.
fn definers(
    alloc: Global,
    built: &Built,
    group: &Group,
    name: &ModName,
    but: Option<u32>,
) -> Result<Vec<u32>, NoMemory> {
    let mut found = Vec::new(alloc);
    for unit in group.units.as_slice() {
        if but != Some(*unit) && defines(&built.skeletons, *unit, name) {
            add_once(&mut found, *unit)?;
        }
    }
    Ok(found)
}

/// Adds the units under which one group exports a name.
fn add_exporters(
    found: &mut Vec<u32>,
    exports: &List<Export>,
    name: &ModName,
) -> Result<(), NoMemory> {
    for export in exports.as_slice() {
        if export.name == *name {
            add_once(found, export.unit)?;
        }
    }
    Ok(())
}

/// The units under which these groups export a name.
fn exporters(
    alloc: Global,
    project: &Project,
    below: &List<List<Export>>,
    among: &[u32],
    name: &ModName,
) -> Result<Vec<u32>, NoMemory> {
    let mut found = Vec::new(alloc);
    let finished = project.finished.as_slice();
    for (group, exports) in finished.iter().zip(below.as_slice()) {
        if has(among, *group) {
            add_exporters(&mut found, exports, name)?;
        }
    }
    Ok(found)
}

/// The refusal of a name.
fn refused(alloc: Global, number: u8, at: &Place, name: &ModName) -> Result<Fault, NoMemory> {
    let mut text = Vec::new(alloc);
    text.extend_from_slice(space_word(name.space))?;
    text.push(b' ')?;
    text.extend_from_slice(name.name.as_bytes())?;
    let mut names = List::new(alloc);
    names.add(Text::from_vec(text))?;
    let at = at.clone()?;
    Ok(Fault::Diag(Diag { number, at, names }))
}

/// A place in a unit's file.
fn place_of(alloc: Global, project: &Project, unit: u32, spot: &Spot) -> Result<Place, NoMemory> {
    let file = match project.units.get(unit as usize) {
        Some(unit) => unit.name.copy()?,
        None => Text::from_bytes(alloc, b"")?,
    };
    Ok(Place {
        file,
        line: spot.line,
        col: spot.col,
    })
}

/// Refuses the first name of a unit that one of these units defines too.
fn no_clash(alloc: Global, built: &Built, earlier: &[u32], unit: u32) -> Result<(), Fault> {
    let Some(skeleton) = built.skeletons.get(unit as usize) else {
        return Ok(());
    };
    for spot in skeleton.defined.as_slice() {
        for other in earlier {
            if *other != unit && defines(&built.skeletons, *other, &spot.name) {
                let at = place_of(alloc, &built.project, unit, spot)?;
                return Err(refused(alloc, 22, &at, &spot.name)?);
            }
        }
    }
    Ok(())
}

/// Refuses the first name that two sources of a group define.
fn no_clashes(alloc: Global, built: &Built, group: &Group) -> Result<(), Fault> {
    let units = group.units.as_slice();
    for at in 0..units.len() {
        no_clash(alloc, built, &units[..at], units[at])?;
    }
    Ok(())
}

/// Adds the names that the sources of a group define.
fn add_defined(built: &Built, group: &Group, names: &mut List<ModName>) -> Result<(), NoMemory> {
    for unit in group.units.as_slice() {
        if let Some(skeleton) = built.skeletons.get(*unit as usize) {
            for spot in skeleton.defined.as_slice() {
                names.add(copied(&spot.name)?)?;
            }
        }
    }
    Ok(())
}

/// The names that a group defines, and those that these groups export.
fn names_there(
    alloc: Global,
    built: &Built,
    below: &List<List<Export>>,
    group: &Group,
    among: &[u32],
) -> Result<List<ModName>, NoMemory> {
    let mut names = List::new(alloc);
    add_defined(built, group, &mut names)?;
    let finished = built.project.finished.as_slice();
    for (number, exports) in finished.iter().zip(below.as_slice()) {
        if has(among, *number) {
            for export in exports.as_slice() {
                names.add(copied(&export.name)?)?;
            }
        }
    }
    Ok(names)
}

/// The subgroups of a group.
fn subgroups(alloc: Global, built: &Built, group: &Group) -> Result<Vec<u32>, NoMemory> {
    let mut found = Vec::new(alloc);
    for member in group.members.as_slice() {
        match built.project.groups.get(*member as usize) {
            Some(other) if !other.library => found.push(*member)?,
            _ => {}
        }
    }
    Ok(found)
}

/// The least of these names that is above another one.
fn least_above<'a>(names: &'a [ModName], last: Option<&ModName>) -> Option<&'a ModName> {
    let mut least: Option<&ModName> = None;
    for name in names {
        let is_above = match last {
            Some(last) => *last < *name,
            None => true,
        };
        let is_less = match least {
            Some(least) => *name < *least,
            None => true,
        };
        if is_above && is_less {
            least = Some(name);
        }
    }
    least
}

/// The export of a name from these units: 25 where there is none, 23 where there are several.
fn export_from(alloc: Global, units: &[u32], at: &Place, name: &ModName) -> Result<Export, Fault> {
    match units {
        [unit] => Ok(Export {
            name: copied(name)?,
            unit: *unit,
            hash: None,
        }),
        [] => Err(refused(alloc, 25, at, name)?),
        _ => Err(refused(alloc, 23, at, name)?),
    }
}

/// The units behind a name of a group: the sources that define it, or else those of these groups.
fn behind(
    alloc: Global,
    built: &Built,
    below: &List<List<Export>>,
    group: &Group,
    among: &[u32],
    name: &ModName,
) -> Result<Vec<u32>, NoMemory> {
    let units = definers(alloc, built, group, name, None)?;
    if !units.is_empty() {
        return Ok(units);
    }
    exporters(alloc, &built.project, below, among, name)
}

/// The exports of a group without an entry.
fn default_exports(
    alloc: Global,
    built: &Built,
    below: &List<List<Export>>,
    group: &Group,
) -> Result<List<Export>, Fault> {
    let among = subgroups(alloc, built, group)?;
    let names = names_there(alloc, built, below, group, among.as_slice())?;
    let at = Place {
        file: group.file.copy()?,
        line: 0,
        col: 0,
    };
    let mut exports = List::new(alloc);
    let mut last: Option<&ModName> = None;
    for _turn in 0..names.len() {
        let Some(name) = least_above(names.as_slice(), last) else {
            break;
        };
        let units = behind(alloc, built, below, group, among.as_slice(), name)?;
        exports.add(export_from(alloc, units.as_slice(), &at, name)?)?;
        last = Some(name);
    }
    Ok(exports)
}

/// Whether a name is exported from a unit.
fn is_exported(exports: &List<Export>, other: &Export) -> bool {
    for export in exports.as_slice() {
        if export.name == other.name && export.unit == other.unit {
            return true;
        }
    }
    false
}

/// The exports of chosen entries.
fn entry_exports(
    alloc: Global,
    built: &Built,
    below: &List<List<Export>>,
    group: &Group,
    chosen: &List<u32>,
) -> Result<List<Export>, Fault> {
    let mut exports = List::new(alloc);
    for number in chosen.as_slice() {
        if let Some(Entry { name, at }) = group.entries.get(*number as usize) {
            let units = behind(alloc, built, below, group, group.members.as_slice(), name)?;
            let export = export_from(alloc, units.as_slice(), at, name)?;
            if !is_exported(&exports, &export) {
                exports.add(export)?;
            }
        }
    }
    Ok(exports)
}

/// What a group exports.
fn exports_of(
    alloc: Global,
    built: &Built,
    below: &List<List<Export>>,
    group: &Group,
) -> Result<List<Export>, Fault> {
    no_clashes(alloc, built, group)?;
    let there = names_there(alloc, built, below, group, group.members.as_slice())?;
    let chosen = select(alloc, &group.export_lines, &List::new(alloc), &there)?;
    if group.entries.is_empty() {
        default_exports(alloc, built, below, group)
    } else {
        entry_exports(alloc, built, below, group, &chosen)
    }
}

/// Whether a unit sees the built-in structures, and a name is that of one.
fn is_basis(project: &Project, unit: u32, name: &ModName) -> bool {
    let text = name.name.as_bytes();
    let is_known = text == b"Int".as_slice()
        || text == b"String".as_slice()
        || text == b"Char".as_slice();
    match (name.space, project.units.get(unit as usize)) {
        (Namespace::Structure, Some(unit)) => match &unit.body {
            UnitBody::Source { options, source: _ } => is_known && !options.nobasis,
            UnitBody::Frozen { .. } => false,
        },
        _ => false,
    }
}

/// What a unit of a group imports.
fn imports_of(
    alloc: Global,
    built: &Built,
    below: &List<List<Export>>,
    group: &Group,
    unit: u32,
) -> Result<List<Wanted>, Fault> {
    let mut wanted = List::new(alloc);
    let Some(skeleton) = built.skeletons.get(unit as usize) else {
        return Ok(wanted);
    };
    for need in skeleton.free.as_slice() {
        let name = &need.spot.name;
        let mut units = definers(alloc, built, group, name, Some(unit))?;
        if units.is_empty() {
            units = exporters(alloc, &built.project, below, group.members.as_slice(), name)?;
        }
        match units.as_slice() {
            [provider] => wanted.add(Wanted {
                name: copied(name)?,
                provider: *provider,
            })?,
            _ if !need.sure => {}
            [] if is_basis(&built.project, unit, name) => {}
            several => {
                let number = if several.is_empty() { 24 } else { 23 };
                let at = place_of(alloc, &built.project, unit, &need.spot)?;
                return Err(refused(alloc, number, &at, name)?);
            }
        }
    }
    Ok(wanted)
}

/// All names of a project whose groups were read and ended in the order of their numbers, and whose units have the
/// numbers of their places in the groups.
pub fn plain_names(alloc: Global, built: &Built) -> Result<Names, Fault> {
    let mut exports = List::new(alloc);
    let mut wanted = List::new(alloc);
    for group in built.project.groups.as_slice() {
        let these = exports_of(alloc, built, &exports, group)?;
        for unit in group.units.as_slice() {
            wanted.add(imports_of(alloc, built, &exports, group, *unit)?)?;
        }
        exports.add(these)?;
    }
    Ok(Names { exports, wanted })
}
