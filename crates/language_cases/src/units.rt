//! Cases of whole sources: `unit`, the tree as it is written, or `ok` in its place with `briefly`; `places`, the
//! same with the places; `bare`, the bare tree with its places; `repeat`, the first place at which a name stands
//! again; `height`, that of the bare tree in levels. Each may give the diagnostic instead.

use crate::diagnostics::{file, refused_line};
use case_files::{Case, CaseFault, Part};
use cm_base::{Fault, NoMemory, Text};
use derived_forms::to_bare;
use module_parser::parse_unit;
use repeated_names::first_repeat;
use sml_trees::{At, BareUnit, FullUnit};
use std::alloc::Global;
use tree_heights::unit_height;
use tree_printing::Printer;

/// The unit of a source.
pub fn unit_of(alloc: Global, text: &[u8]) -> Result<FullUnit, Fault> {
    let source = Text::from_bytes(alloc, text)?;
    parse_unit(alloc, &file(alloc)?, &source)
}

/// The bare unit of a source.
pub fn bare_of(alloc: Global, text: &[u8]) -> Result<BareUnit, Fault> {
    let unit = unit_of(alloc, text)?;
    to_bare(alloc, &unit)
}

/// The line of a unit as it is written.
fn line_of(
    alloc: Global,
    unit: &FullUnit,
    has_places: bool,
    is_brief: bool,
) -> Result<Vec<u8>, NoMemory> {
    let mut to = Printer::new(alloc, has_places);
    if is_brief {
        to.put(b"ok");
    } else {
        full_tree_printing::unit(&mut to, unit);
    }
    to.put(b"\n");
    Ok(Vec::from_slice(alloc, to.bytes()?)?)
}

/// The tree of a source as it is written.
pub fn written(alloc: Global, case: &Case, text: &[u8]) -> Result<Vec<u8>, CaseFault> {
    let is_brief = case.find(b"briefly")?.is_some();
    match unit_of(alloc, text) {
        Ok(unit) => Ok(line_of(alloc, &unit, false, is_brief)?),
        Err(fault) => Ok(refused_line(alloc, &fault)?),
    }
}

/// The tree of a source as it is written, with its places.
pub fn places(alloc: Global, text: &[u8]) -> Result<Vec<u8>, NoMemory> {
    match unit_of(alloc, text) {
        Ok(unit) => line_of(alloc, &unit, true, false),
        Err(fault) => refused_line(alloc, &fault),
    }
}

/// The lines of a bare unit.
fn bare_lines(alloc: Global, unit: &BareUnit, is_brief: bool) -> Result<Vec<u8>, NoMemory> {
    let mut to = Printer::new(alloc, true);
    if is_brief {
        to.put(b"ok\n");
    } else {
        tree_printing::unit(&mut to, unit);
    }
    Ok(Vec::from_slice(alloc, to.bytes()?)?)
}

/// The bare tree of a source, with its places.
pub fn bare(alloc: Global, case: &Case, text: &[u8]) -> Result<Vec<u8>, CaseFault> {
    let is_brief = case.find(b"briefly")?.is_some();
    match bare_of(alloc, text) {
        Ok(unit) => Ok(bare_lines(alloc, &unit, is_brief)?),
        Err(fault) => Ok(refused_line(alloc, &fault)?),
    }
}

/// The line of a place, `none` where there is none.
fn place_line(alloc: Global, found: Option<At>) -> Result<Vec<u8>, NoMemory> {
    let mut to = Printer::new(alloc, false);
    match found {
        Some(at) => to.parts(&[
            Part::Number(u64::from(at.line)),
            Part::Text(b":"),
            Part::Number(u64::from(at.col)),
            Part::Text(b"\n"),
        ]),
        None => to.put(b"none\n"),
    }
    Ok(Vec::from_slice(alloc, to.bytes()?)?)
}

/// The first place at which a name of a source stands again.
pub fn repeat(alloc: Global, text: &[u8]) -> Result<Vec<u8>, NoMemory> {
    match unit_of(alloc, text) {
        Ok(unit) => place_line(alloc, first_repeat(alloc, &unit)?),
        Err(fault) => refused_line(alloc, &fault),
    }
}

/// The line of a number.
fn number_line(alloc: Global, number: usize) -> Result<Vec<u8>, NoMemory> {
    let mut to = Printer::new(alloc, false);
    to.parts(&[Part::Number(number as u64), Part::Text(b"\n")]);
    Ok(Vec::from_slice(alloc, to.bytes()?)?)
}

/// The height of the bare tree of a source, in levels, also where it is too deep to be made.
pub fn height(alloc: Global, text: &[u8]) -> Result<Vec<u8>, NoMemory> {
    match unit_of(alloc, text) {
        Ok(unit) => number_line(alloc, unit_height(alloc, &unit)?),
        Err(fault) => refused_line(alloc, &fault),
    }
}
