//! What several kinds of cases print.

use case_files::{Part, push_parts};
use cm_base::{Diag, Fault, NoMemory};
use std::alloc::Global;

/// Adds a line.
pub fn push_line(alloc: Global, out: &mut Vec<u8>, line: &[u8]) -> Result<(), NoMemory> {
    push_parts(alloc, out, &[Part::Text(line), Part::Text(b"\n")])
}

/// Bytes as a line.
pub fn line(alloc: Global, bytes: &[u8]) -> Result<Vec<u8>, NoMemory> {
    let mut out = Vec::new(alloc);
    push_line(alloc, &mut out, bytes)?;
    Ok(out)
}

/// Adds a refusal: its number, its place and its names.
pub fn push_diag(alloc: Global, out: &mut Vec<u8>, diag: &Diag) -> Result<(), NoMemory> {
    let place = [
        Part::Text(b"refused "),
        Part::Number(u64::from(diag.number)),
        Part::Text(b" at "),
        Part::Text(diag.at.file.as_bytes()),
        Part::Text(b":"),
        Part::Number(u64::from(diag.at.line)),
        Part::Text(b":"),
        Part::Number(u64::from(diag.at.col)),
    ];
    push_parts(alloc, out, &place)?;
    for name in diag.names.as_slice() {
        push_parts(alloc, out, &[Part::Text(b" "), Part::Text(name.as_bytes())])?;
    }
    push_parts(alloc, out, &[Part::Text(b"\n")])
}

/// A refusal as a line. Want of memory is handed on.
pub fn refusal(alloc: Global, fault: &Fault) -> Result<Vec<u8>, NoMemory> {
    match fault {
        Fault::Diag(diag) => {
            let mut out = Vec::new(alloc);
            push_diag(alloc, &mut out, diag)?;
            Ok(out)
        }
        Fault::NoMemory => Err(NoMemory),
    }
}
