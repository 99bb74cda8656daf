//! Cases of codes: `source-code`, the bytes of the code of a source, or its diagnostic; `code`, the bare tree that
//! bytes are the code of, without places, or `code` in its place with `briefly`. What is read is written again, and
//! where that gives other bytes a line tells so. `code-fronts`: how long the fronts of bytes are that are codes.

use crate::diagnostics::refused_line;
use crate::units::bare_of;
use case_files::{Case, CaseFault, Part, push_parts};
use cm_base::NoMemory;
use sml_syntax::{CodeFault, read_code, write_code};
use sml_trees::BareUnit;
use std::alloc::Global;
use tree_printing::Printer;

/// The bytes of the code of a source.
pub fn of_source(alloc: Global, text: &[u8]) -> Result<Vec<u8>, NoMemory> {
    match bare_of(alloc, text) {
        Ok(unit) => Ok(Vec::from_slice(alloc, write_code(alloc, &unit)?.as_bytes())?),
        Err(fault) => refused_line(alloc, &fault),
    }
}

/// The lines of a unit that was read of bytes.
fn lines_of(
    alloc: Global,
    unit: &BareUnit,
    bytes: &[u8],
    is_brief: bool,
) -> Result<Vec<u8>, NoMemory> {
    let mut to = Printer::new(alloc, false);
    if is_brief {
        to.put(b"code\n");
    } else {
        tree_printing::unit(&mut to, unit);
    }
    if write_code(alloc, unit)?.as_bytes() != bytes {
        to.put(b"which is written as other bytes\n");
    }
    if !unit.file.as_bytes().is_empty() {
        to.put(b"which has the name of a file\n");
    }
    Ok(Vec::from_slice(alloc, to.bytes()?)?)
}

/// The bare tree that bytes are the code of.
pub fn read(alloc: Global, case: &Case, bytes: &[u8]) -> Result<Vec<u8>, CaseFault> {
    let is_brief = case.find(b"briefly")?.is_some();
    match read_code(alloc, bytes) {
        Ok(unit) => Ok(lines_of(alloc, &unit, bytes, is_brief)?),
        Err(CodeFault::BadCode) => Ok(Vec::from_slice(alloc, b"no code\n")?),
        Err(CodeFault::NoMemory) => Err(CaseFault::NoMemory),
    }
}

/// Whether bytes are a code.
fn is_code(alloc: Global, bytes: &[u8]) -> Result<bool, NoMemory> {
    match read_code(alloc, bytes) {
        Ok(_unit) => Ok(true),
        Err(CodeFault::BadCode) => Ok(false),
        Err(CodeFault::NoMemory) => Err(NoMemory),
    }
}

/// How long the fronts of bytes are that are codes, each in a line.
pub fn fronts(alloc: Global, bytes: &[u8]) -> Result<Vec<u8>, NoMemory> {
    let mut out = Vec::new(alloc);
    for len in 0..=bytes.len() {
        if is_code(alloc, &bytes[..len])? {
            push_parts(
                alloc,
                &mut out,
                &[Part::Number(len as u64), Part::Text(b"\n")],
            )?;
        }
    }
    Ok(out)
}
