//! A linked program: the units of a build with the places of those that they import from.

use cm_base::{List, ModName, Text};
use sml_syntax::BareUnit;

/// An imported name, and the place of the unit that provides it.
#[derive(Debug, Drop)]
pub struct LinkedImport {
    pub name: ModName,
    pub from: u32,
}

/// A unit of a linked program.
#[derive(Debug, Drop)]
pub struct LinkedUnit {
    pub unit: Text,
    pub imports: List<LinkedImport>,
    pub code: Text,
}

/// A linked program, each provider before its users.
#[derive(Debug, Drop)]
pub struct Linked {
    pub units: List<LinkedUnit>,
}

/// A unit of a linked program that was read, with its code as a tree. Its places are 0, and it names no file.
#[derive(Drop)]
pub struct ProgramUnit {
    pub unit: Text,
    pub imports: List<LinkedImport>,
    pub code: BareUnit,
}

/// A linked program that was read, each provider before its users.
#[derive(Drop)]
pub struct Program {
    pub units: List<ProgramUnit>,
}
