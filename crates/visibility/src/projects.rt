//! The parts of a project by their numbers.

ghost use Rattle.std.specs.Prelude.{◌≡◌, IfOk};
ghost use Rattle.visibility.specs.Imports.{sees_basis, shows_basis};
ghost use Rattle.visibility.specs.Projects.{group_of, is_library, members, sources, unit_file};

use cm_base::{NoMemory, Text};
use cm_description::{Project, UnitBody};
use std::alloc::Global;

/// The sources of a group, in member order.
pub(crate) fn sources(project: &Project, group: u32) -> &[u32]
    ensures { result.now ≡ sources project.now group }
{
    match project.groups.get(group as usize) {
        Some(group) => group.units.as_slice(),
        None => &[],
    }
}

/// The groups and libraries among the members of a group, in member order.
pub(crate) fn members(project: &Project, group: u32) -> &[u32]
    ensures { result.now ≡ members project.now group }
{
    match project.groups.get(group as usize) {
        Some(group) => group.members.as_slice(),
        None => &[],
    }
}

/// The group that has a unit as its source.
pub(crate) fn group_of(project: &Project, unit: u32) -> u32
    ensures { result ≡ group_of project.now unit }
{
    match project.units.get(unit as usize) {
        Some(unit) => unit.group,
        None => 0,
    }
}

/// Whether a group is a library.
pub(crate) fn is_library(project: &Project, group: u32) -> bool
    ensures { result ≡ is_library project.now group }
{
    match project.groups.get(group as usize) {
        Some(group) => group.library,
        None => false,
    }
}

/// The name of a unit, which is that of its file.
pub(crate) fn unit_file(alloc: Global, project: &Project, unit: u32) -> Result<Text, NoMemory>
    ensures { IfOk result (λ file. file ≡ unit_file project.now unit) }
{
    match project.units.get(unit as usize) {
        Some(unit) => unit.name.copy(),
        None => Text::from_bytes(alloc, b""),
    }
}

/// Whether the built-in structures are visible in a source.
fn shows_basis(body: &UnitBody) -> bool
    ensures { result ≡ shows_basis body.now }
{
    match body {
        UnitBody::Source { options, source: _ } => !options.nobasis,
        UnitBody::Frozen {
            imports: _,
            interface: _,
            code: _,
        } => false,
    }
}

/// Whether a unit sees the built-in structures.
pub(crate) fn sees_basis(project: &Project, unit: u32) -> bool
    ensures { result ≡ sees_basis project.now unit }
{
    match project.units.get(unit as usize) {
        Some(unit) => shows_basis(&unit.body),
        None => false,
    }
}
