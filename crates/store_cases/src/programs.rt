//! What is read of the bytes of a linked program: a line a unit, and a line an import with the place of its provider.

ghost use Rattle.std.specs.Prelude.{◌≡◌, All, true};
ghost use Rattle.linker.specs.Spelling.{IsShort, IsShortImport, IsShortUnit};

use crate::bin_lines::{again_line, space_word};
use case_files::{Part, push_parts};
use case_texts::line;
use cm_base::{List, NoMemory, Text};
use linker::{Linked, LinkedImport, LinkedUnit, Program, ProgramUnit, read_linked, write_linked};
use sml_syntax::write_code;
use std::alloc::Global;

/// Whether an import has a short name.
fn is_short_import(import: &LinkedImport) -> bool
    ensures { result ≡ true → IsShortImport import.now }
{
    import.name.name.as_bytes().len() < 1 << 32
}

/// Whether each import has a short name.
fn are_short(imports: &[LinkedImport]) -> bool
    ensures { result ≡ true → All IsShortImport imports.now }
{
    imports.iter().all(|import| is_short_import(import))
}

/// Whether the texts and the list of a unit are short.
fn is_short_unit(unit: &LinkedUnit) -> bool
    ensures { result ≡ true → IsShortUnit unit.now }
{
    unit.unit.as_bytes().len() < 1 << 32
        && unit.imports.len() < 1 << 32
        && unit.code.as_bytes().len() < 1 << 32
        && are_short(unit.imports.as_slice())
}

/// Whether each unit is short.
fn all_short(units: &[LinkedUnit]) -> bool
    ensures { result ≡ true → All IsShortUnit units.now }
{
    units.iter().all(|unit| is_short_unit(unit))
}

/// Whether the texts and lists of a program are short.
fn is_short(linked: &Linked) -> bool
    ensures { result ≡ true → IsShort linked.now }
{
    linked.units.len() < 1 << 32 && all_short(linked.units.as_slice())
}

/// The file of a program. None for one that is too long.
fn file_of(alloc: Global, linked: &Linked) -> Result<Option<Text>, NoMemory> {
    if !is_short(linked) {
        return Ok(None);
    }
    Ok(Some(write_linked(alloc, linked)?))
}

/// Imports, copied.
fn imports_of(alloc: Global, imports: &[LinkedImport]) -> Result<List<LinkedImport>, NoMemory> {
    let mut copies = List::new(alloc);
    for import in imports {
        copies.add(LinkedImport {
            name: import.name.clone()?,
            from: import.from,
        })?;
    }
    Ok(copies)
}

/// A unit with its code as bytes.
fn unit_of(alloc: Global, unit: &ProgramUnit) -> Result<LinkedUnit, NoMemory> {
    Ok(LinkedUnit {
        unit: unit.unit.copy()?,
        imports: imports_of(alloc, unit.imports.as_slice())?,
        code: write_code(alloc, &unit.code)?,
    })
}

/// A program with its codes as bytes.
fn linked_of(alloc: Global, program: &Program) -> Result<Linked, NoMemory> {
    let mut units = List::new(alloc);
    for unit in program.units.as_slice() {
        units.add(unit_of(alloc, unit)?)?;
    }
    Ok(Linked { units })
}

/// Adds the line of an import.
fn push_import(alloc: Global, out: &mut Vec<u8>, import: &LinkedImport) -> Result<(), NoMemory> {
    let parts = [
        Part::Text(b"imports "),
        Part::Text(space_word(import.name.space)),
        Part::Text(b" "),
        Part::Text(import.name.name.as_bytes()),
        Part::Text(b" from "),
        Part::Number(u64::from(import.from)),
        Part::Text(b"\n"),
    ];
    push_parts(alloc, out, &parts)
}

/// Adds the lines of a unit.
fn push_unit(alloc: Global, out: &mut Vec<u8>, unit: &LinkedUnit) -> Result<(), NoMemory> {
    let parts = [
        Part::Text(b"unit "),
        Part::Text(unit.unit.as_bytes()),
        Part::Text(b", code of "),
        Part::Number(unit.code.as_bytes().len() as u64),
        Part::Text(b" bytes\n"),
    ];
    push_parts(alloc, out, &parts)?;
    for import in unit.imports.as_slice() {
        push_import(alloc, out, import)?;
    }
    Ok(())
}

/// The lines of a program, and whether it is written again as the same bytes.
fn lines_of(alloc: Global, program: &Program, bytes: &[u8]) -> Result<Vec<u8>, NoMemory> {
    let linked = linked_of(alloc, program)?;
    let mut out = Vec::new(alloc);
    for unit in linked.units.as_slice() {
        push_unit(alloc, &mut out, unit)?;
    }
    let again = file_of(alloc, &linked)?;
    let file = again.as_ref().map(|file| file.as_bytes());
    push_parts(alloc, &mut out, &[Part::Text(again_line(file, bytes))])?;
    Ok(out)
}

/// The lines of the linked program that some bytes are, or that they are none.
pub fn shown(alloc: Global, bytes: &Text) -> Result<Vec<u8>, NoMemory> {
    match read_linked(alloc, bytes.as_bytes())? {
        Some(program) => lines_of(alloc, &program, bytes.as_bytes()),
        None => line(alloc, b"none"),
    }
}

/// How many units the program has that some bytes are, and whether it is written again as the same bytes.
fn counted(alloc: Global, program: &Program, bytes: &[u8]) -> Result<Vec<u8>, NoMemory> {
    let again = file_of(alloc, &linked_of(alloc, program)?)?;
    let file = again.as_ref().map(|file| file.as_bytes());
    let mut out = Vec::new(alloc);
    let parts = [
        Part::Number(program.units.len() as u64),
        Part::Text(b" units, "),
        Part::Text(again_line(file, bytes)),
    ];
    push_parts(alloc, &mut out, &parts)?;
    Ok(out)
}

/// How many units are read of bytes, or that they are no program.
pub fn count(alloc: Global, bytes: &Text) -> Result<Vec<u8>, NoMemory> {
    match read_linked(alloc, bytes.as_bytes())? {
        Some(program) => counted(alloc, &program, bytes.as_bytes()),
        None => line(alloc, b"none"),
    }
}
