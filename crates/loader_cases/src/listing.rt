//! Projects and refusals as lines.

use case_files::{Part, push_all, push_parts};
use case_scenes::push_diag;
use cm_base::{Diag, NoMemory, Text};
use cm_description::{Group, Project, Unit, UnitBody};
use std::alloc::Global;

/// How much was loaded.
pub fn loaded_line(alloc: Global, project: &Project) -> Result<Text, NoMemory> {
    let mut out = Vec::new(alloc);
    let parts = [
        Part::Text(b"[loaded: "),
        Part::Number(project.units.len() as u64),
        Part::Text(b" units, "),
        Part::Number(project.groups.len() as u64),
        Part::Text(b" groups]\n"),
    ];
    push_parts(alloc, &mut out, &parts)?;
    Ok(Text::from_vec(out))
}

/// A diagnostic, and that the project is refused.
pub fn refused_lines(alloc: Global, diag: &Diag) -> Result<Text, NoMemory> {
    let mut out = Vec::new(alloc);
    push_diag(alloc, &mut out, diag)?;
    push_all(&mut out, b"[diagnostic]\n")?;
    Ok(Text::from_vec(out))
}

/// The name of the group of a number.
fn group_name(project: &Project, number: u32) -> &[u8] {
    match project.groups.get(number as usize) {
        Some(group) => group.file.as_bytes(),
        None => b"?",
    }
}

/// An option's word, where the option is set.
fn option_word(word: &'static [u8], is_set: bool) -> &'static [u8] {
    if is_set { word } else { b"" }
}

/// Adds the line of a unit: its name, its group, and the options that it has.
fn push_unit(out: &mut Vec<u8>, project: &Project, unit: &Unit) -> Result<(), NoMemory> {
    let (nobasis, opaque) = match &unit.body {
        UnitBody::Source { options, .. } => (options.nobasis, options.opaque),
        UnitBody::Frozen { .. } => (false, false),
    };
    push_all(out, unit.name.as_bytes())?;
    push_all(out, b" of ")?;
    push_all(out, group_name(project, unit.group))?;
    push_all(out, option_word(b" nobasis", nobasis))?;
    push_all(out, option_word(b" opaque", opaque))?;
    push_all(out, b"\n")
}

/// The lines of all units.
pub fn unit_lines(alloc: Global, project: &Project) -> Result<Text, NoMemory> {
    let mut out = Vec::new(alloc);
    for unit in project.units.as_slice() {
        push_unit(&mut out, project, unit)?;
    }
    Ok(Text::from_vec(out))
}

/// Adds the line of a group: its kind and its name, its owner, and the groups among its members.
fn push_group(out: &mut Vec<u8>, project: &Project, group: &Group) -> Result<(), NoMemory> {
    let kind = if group.library {
        b"library ".as_slice()
    } else {
        b"group "
    };
    push_all(out, kind)?;
    push_all(out, group.file.as_bytes())?;
    push_all(out, b" of ")?;
    push_all(out, group_name(project, group.owner))?;
    push_all(out, b":")?;
    for member in group.members.as_slice() {
        push_all(out, b" ")?;
        push_all(out, group_name(project, *member))?;
    }
    push_all(out, b"\n")
}

/// The lines of all groups.
pub fn group_lines(alloc: Global, project: &Project) -> Result<Text, NoMemory> {
    let mut out = Vec::new(alloc);
    for group in project.groups.as_slice() {
        push_group(&mut out, project, group)?;
    }
    Ok(Text::from_vec(out))
}

/// The names of the groups in the order in which their loading ended.
pub fn finished_lines(alloc: Global, project: &Project) -> Result<Text, NoMemory> {
    let mut out = Vec::new(alloc);
    for number in project.finished.as_slice() {
        push_all(&mut out, group_name(project, *number))?;
        push_all(&mut out, b"\n")?;
    }
    Ok(Text::from_vec(out))
}
