//! What a loading gave, as lines.

use case_files::{CaseFault, Part, push_all, push_parts};
use case_scenes::push_diag;
use cm_base::{Diag, List, NoMemory, Text};
use cm_description::{Project, Unit, UnitBody};
use group_loader::LoadFault;
use std::alloc::Global;

/// No project.
pub fn nothing(alloc: Global) -> Project {
    Project {
        units: List::new(alloc),
        groups: List::new(alloc),
        finished: List::new(alloc),
    }
}

/// Adds the line of a unit: its name, and how many bytes its source has.
fn push_unit(alloc: Global, out: &mut Vec<u8>, unit: &Unit) -> Result<(), NoMemory> {
    let bytes = match &unit.body {
        UnitBody::Source { source, .. } => source.as_bytes().len(),
        UnitBody::Frozen { .. } => 0,
    };
    push_all(out, unit.name.as_bytes())?;
    let parts = [
        Part::Text(b" "),
        Part::Number(bytes as u64),
        Part::Text(b"\n"),
    ];
    push_parts(alloc, out, &parts)
}

/// The lines of the units of a project.
pub fn unit_lines(alloc: Global, project: &Project) -> Result<Text, NoMemory> {
    let mut out = Vec::new(alloc);
    for unit in project.units.as_slice() {
        push_unit(alloc, &mut out, unit)?;
    }
    Ok(Text::from_vec(out))
}

/// The line of a diagnostic.
fn diag_line(alloc: Global, diag: &Diag) -> Result<Text, NoMemory> {
    let mut out = Vec::new(alloc);
    push_diag(alloc, &mut out, diag)?;
    Ok(Text::from_vec(out))
}

/// How a loading ended that gave no project.
pub fn fault_line(alloc: Global, fault: LoadFault) -> Result<Text, CaseFault> {
    match fault {
        LoadFault::Diag(diag) => Ok(diag_line(alloc, &diag)?),
        LoadFault::Folder => Ok(Text::from_bytes(alloc, b"[folder fault]\n")?),
        LoadFault::Tool => Ok(Text::from_bytes(alloc, b"[tool fault]\n")?),
        LoadFault::NoMemory => Err(CaseFault::NoMemory),
    }
}

/// The source of the unit of a name, if the project has one.
pub fn source_of(project: &Project, name: &[u8]) -> Result<Option<Text>, NoMemory> {
    for unit in project.units.as_slice() {
        if unit.name.as_bytes() == name {
            return match &unit.body {
                UnitBody::Source { source, .. } => Ok(Some(source.copy()?)),
                UnitBody::Frozen { .. } => Ok(None),
            };
        }
    }
    Ok(None)
}
