//! Units are read, made bare and elaborated.

use crate::kind::Kind;
use crate::shown::lines_of;
use case_texts::refusal;
use cm_base::{Fault, NoMemory, Options, Text};
use derived_forms::to_bare;
use module_elab::elab_unit;
use module_parser::parse_unit;
use sml_modules::EnvGraph;
use sml_trees::BareUnit;
use sml_types::TypeTable;
use std::alloc::Global;

/// The name of each unit: it owns the types, and is the file of the refusals.
const UNIT: &[u8] = b"a.sml";

/// Another name, under which a unit has the same interface.
const OTHER: &[u8] = b"b.sml";

/// The bare unit of a source.
fn bare_unit(alloc: Global, file: &Text, source: &Text) -> Result<BareUnit, Fault> {
    let unit = parse_unit(alloc, file, source)?;
    to_bare(alloc, &unit)
}

/// What is answered to a unit of this name that is elaborated in a graph of nothing, over a table of nothing.
fn elaborated_in(
    alloc: Global,
    g: &mut EnvGraph,
    t: &mut TypeTable,
    kind: Kind,
    options: Options,
    name: &Text,
    unit: &BareUnit,
) -> Result<Vec<u8>, NoMemory> {
    g.enter(name)?;
    let given = g.empty_top()?;
    match elab_unit(g, t, unit, given, options) {
        Ok(top) => lines_of(alloc, kind, unit, name, g, top),
        Err(fault) => refusal(alloc, &fault),
    }
}

/// What is answered to a bare unit of this name.
fn elaborated(
    alloc: Global,
    kind: Kind,
    options: Options,
    name: &Text,
    unit: &BareUnit,
) -> Result<Vec<u8>, NoMemory> {
    let mut graph = EnvGraph::new(alloc)?;
    let mut table = TypeTable::new(alloc)?;
    elaborated_in(alloc, &mut graph, &mut table, kind, options, name, unit)
}

/// What is answered to a source of a unit of this name.
fn answer_under(
    alloc: Global,
    kind: Kind,
    options: Options,
    name: &[u8],
    source: &Text,
) -> Result<Vec<u8>, NoMemory> {
    let name = Text::from_bytes(alloc, name)?;
    match bare_unit(alloc, &name, source) {
        Ok(unit) => elaborated(alloc, kind, options, &name, &unit),
        Err(fault) => refusal(alloc, &fault),
    }
}

/// What is answered to a source: lines of what it defines, its interface, or its refusal.
pub fn answer_of(
    alloc: Global,
    kind: Kind,
    options: Options,
    source: &Text,
) -> Result<Vec<u8>, NoMemory> {
    let mut lines = answer_under(alloc, kind, options, UNIT, source)?;
    if kind.is_of_interfaces() {
        let others = answer_under(alloc, kind, options, OTHER, source)?;
        if others.as_slice() != lines.as_slice() {
            lines.extend_from_slice(others.as_slice())?;
        }
    }
    Ok(lines)
}
