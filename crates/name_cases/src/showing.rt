//! What groups show and units import, as lines.

use case_files::{Part, push_parts};
use case_texts::refusal;
use cm_base::{Fault, List, ModName, NoMemory};
use cm_conditions::space_word;
use cm_description::{Export, Project, Wanted};
use std::alloc::Global;
use visibility::Names;

/// Adds a name with its unit, behind a mark.
fn push_name<'x>(
    alloc: Global,
    out: &mut Vec<u8>,
    project: &'x Project,
    mark: &'x [u8],
    name: &'x ModName,
    unit: u32,
) -> Result<(), NoMemory> {
    let unit = match project.units.get(unit as usize) {
        Some(unit) => unit.name.as_bytes(),
        None => b"no unit".as_slice(),
    };
    let parts = [
        Part::Text(mark),
        Part::Text(space_word(name.space)),
        Part::Text(b" "),
        Part::Text(name.name.as_bytes()),
        Part::Text(b" = "),
        Part::Text(unit),
    ];
    push_parts(alloc, out, &parts)
}

/// Adds the line of what a group shows.
pub fn push_exports(
    alloc: Global,
    out: &mut Vec<u8>,
    project: &Project,
    file: &[u8],
    shown: &List<Export>,
) -> Result<(), NoMemory> {
    push_parts(alloc, out, &[Part::Text(file), Part::Text(b":")])?;
    let mut mark: &[u8] = b" ";
    for export in shown.as_slice() {
        push_name(alloc, out, project, mark, &export.name, export.unit)?;
        mark = b"; ";
    }
    push_parts(alloc, out, &[Part::Text(b"\n")])
}

/// Adds the line of what a unit imports.
pub fn push_imports(
    alloc: Global,
    out: &mut Vec<u8>,
    project: &Project,
    file: &[u8],
    imported: &List<Wanted>,
) -> Result<(), NoMemory> {
    push_parts(alloc, out, &[Part::Text(file), Part::Text(b":")])?;
    let mut mark: &[u8] = b" ";
    for wanted in imported.as_slice() {
        push_name(alloc, out, project, mark, &wanted.name, wanted.provider)?;
        mark = b"; ";
    }
    push_parts(alloc, out, &[Part::Text(b"\n")])
}

/// The lines of all names: one of each group, and then one of each unit.
fn names_lines(alloc: Global, project: &Project, names: &Names) -> Result<Vec<u8>, NoMemory> {
    let mut out = Vec::new(alloc);
    let groups = project.groups.as_slice();
    for (group, shown) in groups.iter().zip(names.exports.as_slice()) {
        push_exports(alloc, &mut out, project, group.file.as_bytes(), shown)?;
    }
    let units = project.units.as_slice();
    for (unit, imported) in units.iter().zip(names.wanted.as_slice()) {
        push_imports(alloc, &mut out, project, unit.name.as_bytes(), imported)?;
    }
    Ok(out)
}

/// All names as lines, or the refusal.
pub fn answered(
    alloc: Global,
    project: &Project,
    names: &Result<Names, Fault>,
) -> Result<Vec<u8>, NoMemory> {
    match names {
        Ok(names) => names_lines(alloc, project, names),
        Err(fault) => refusal(alloc, fault),
    }
}
