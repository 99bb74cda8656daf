//! Diagnostics as lines.

use case_files::{Part, push_parts};
use cm_base::{Diag, Fault, NoMemory, Text};
use std::alloc::Global;

/// The name of the file of each source.
pub fn file(alloc: Global) -> Result<Text, NoMemory> {
    Text::from_bytes(alloc, b"a.sml")
}

/// Adds a diagnostic: its place, its number and its names.
fn push_diag(alloc: Global, out: &mut Vec<u8>, diag: &Diag) -> Result<(), NoMemory> {
    let parts = [
        Part::Text(diag.at.file.as_bytes()),
        Part::Text(b":"),
        Part::Number(u64::from(diag.at.line)),
        Part::Text(b":"),
        Part::Number(u64::from(diag.at.col)),
        Part::Text(b": error "),
        Part::Number(u64::from(diag.number)),
    ];
    push_parts(alloc, out, &parts)?;
    for name in diag.names.as_slice() {
        push_parts(alloc, out, &[Part::Text(b" "), Part::Text(name.as_bytes())])?;
    }
    Ok(())
}

/// A diagnostic, without a line feed.
pub fn told(alloc: Global, diag: &Diag) -> Result<Vec<u8>, NoMemory> {
    let mut out = Vec::new(alloc);
    push_diag(alloc, &mut out, diag)?;
    Ok(out)
}

/// The diagnostic that a fault is, without a line feed. Want of memory is handed on.
pub fn refused(alloc: Global, fault: &Fault) -> Result<Vec<u8>, NoMemory> {
    match fault {
        Fault::Diag(diag) => told(alloc, diag),
        Fault::NoMemory => Err(NoMemory),
    }
}

/// The same with a line feed.
pub fn refused_line(alloc: Global, fault: &Fault) -> Result<Vec<u8>, NoMemory> {
    let mut line = refused(alloc, fault)?;
    line.push(b'\n')?;
    Ok(line)
}

/// These bytes and a line feed.
pub fn line(alloc: Global, bytes: &[u8]) -> Result<Vec<u8>, NoMemory> {
    let mut out = Vec::from_slice(alloc, bytes)?;
    out.push(b'\n')?;
    Ok(out)
}
