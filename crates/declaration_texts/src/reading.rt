//! Texts are read as the declarations of a structure, which is a unit.

use case_files::{Part, push_parts};
use cm_base::{Fault, NoMemory, Text};
use derived_forms::to_bare;
use module_parser::parse_unit;
use sml_trees::BareUnit;
use std::alloc::Global;

/// The name of the unit of each text: it owns the types, and is the file of the refusals.
pub const UNIT: &[u8] = b"a.sml";

/// The source of a unit: a structure whose declarations stand on lines of their own.
fn source_of(alloc: Global, decs: &[u8]) -> Result<Text, NoMemory> {
    let mut out = Vec::new(alloc);
    push_parts(
        alloc,
        &mut out,
        &[
            Part::Text(b"structure A = struct\n"),
            Part::Text(decs),
            Part::Text(b"\nend\n"),
        ],
    )?;
    Ok(Text::from_vec(out))
}

/// The bare unit of the structure `A` whose declarations a text is, on the second line and those behind. A text is refused
/// as a unit is by the lexer, the parser and what makes trees bare.
pub fn declaration_unit(alloc: Global, decs: &[u8]) -> Result<BareUnit, Fault> {
    let file = Text::from_bytes(alloc, UNIT)?;
    let source = source_of(alloc, decs)?;
    let unit = parse_unit(alloc, &file, &source)?;
    to_bare(alloc, &unit)
}
