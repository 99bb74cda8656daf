//! Cases `lexemes`, `lexeme-count` and `lexeme-places`: `r:WORD`, `n:A:b`, `v:'a`, `i:VALUE`, `l:VALUE` for a
//! label, `s:BYTES` and `c:BYTE`.

use crate::diagnostics::{file, refused_line};
use case_files::{Part, push_parts};
use cm_base::{Fault, List, NoMemory, Text};
use sml_lexer::{Lexeme, LexemeKind, lex};
use std::alloc::Global;

/// The lexemes of a source.
fn lexemes(alloc: Global, text: &[u8]) -> Result<List<Lexeme>, Fault> {
    let source = Text::from_bytes(alloc, text)?;
    lex(alloc, &file(alloc)?, &source)
}

/// Adds bytes behind a mark.
fn push_marked<'x>(
    alloc: Global,
    out: &mut Vec<u8>,
    mark: &'x [u8],
    bytes: &'x [u8],
) -> Result<(), NoMemory> {
    push_parts(alloc, out, &[Part::Text(mark), Part::Text(bytes)])
}

/// Adds a name, with a colon before each of its parts.
fn push_name(alloc: Global, out: &mut Vec<u8>, parts: &[Text]) -> Result<(), NoMemory> {
    push_parts(alloc, out, &[Part::Text(b"n")])?;
    for part in parts {
        push_marked(alloc, out, b":", part.as_bytes())?;
    }
    Ok(())
}

/// Adds an integer.
fn push_int(alloc: Global, out: &mut Vec<u8>, value: i64, label: bool) -> Result<(), NoMemory> {
    let parts = [
        Part::Text(if label { b"l:" } else { b"i:" }),
        Part::Text(if value < 0 { b"-" } else { b"" }),
        Part::Number(value.unsigned_abs()),
    ];
    push_parts(alloc, out, &parts)
}

/// Adds a lexeme.
fn push_kind(alloc: Global, out: &mut Vec<u8>, kind: &LexemeKind) -> Result<(), NoMemory> {
    match kind {
        LexemeKind::Reserved(word) => push_marked(alloc, out, b"r:", word.as_bytes()),
        LexemeKind::Name(parts) => push_name(alloc, out, parts.as_slice()),
        LexemeKind::TyVar(word) => push_marked(alloc, out, b"v:", word.as_bytes()),
        LexemeKind::Int { value, label } => push_int(alloc, out, *value, *label),
        LexemeKind::Str(bytes) => push_marked(alloc, out, b"s:", bytes.as_bytes()),
        LexemeKind::Char(byte) => push_marked(alloc, out, b"c:", &[*byte]),
    }
}

/// The lexemes in a line.
fn shown(alloc: Global, found: &[Lexeme]) -> Result<Vec<u8>, NoMemory> {
    let mut out = Vec::new(alloc);
    for lexeme in found {
        if !out.is_empty() {
            out.push(b' ')?;
        }
        push_kind(alloc, &mut out, &lexeme.kind)?;
    }
    out.push(b'\n')?;
    Ok(out)
}

/// The lexemes of a source in a line.
pub fn in_a_line(alloc: Global, text: &[u8]) -> Result<Vec<u8>, NoMemory> {
    match lexemes(alloc, text) {
        Ok(found) => shown(alloc, found.as_slice()),
        Err(fault) => refused_line(alloc, &fault),
    }
}

/// Adds the line of a lexeme: its place, and the lexeme.
fn push_placed(alloc: Global, out: &mut Vec<u8>, lexeme: &Lexeme) -> Result<(), NoMemory> {
    let parts = [
        Part::Number(u64::from(lexeme.line)),
        Part::Text(b":"),
        Part::Number(u64::from(lexeme.col)),
        Part::Text(b" "),
    ];
    push_parts(alloc, out, &parts)?;
    push_kind(alloc, out, &lexeme.kind)?;
    push_parts(alloc, out, &[Part::Text(b"\n")])
}

/// A line for each lexeme.
fn placed(alloc: Global, found: &[Lexeme]) -> Result<Vec<u8>, NoMemory> {
    let mut out = Vec::new(alloc);
    for lexeme in found {
        push_placed(alloc, &mut out, lexeme)?;
    }
    Ok(out)
}

/// A line for each lexeme of a source.
pub fn places(alloc: Global, text: &[u8]) -> Result<Vec<u8>, NoMemory> {
    match lexemes(alloc, text) {
        Ok(found) => placed(alloc, found.as_slice()),
        Err(fault) => refused_line(alloc, &fault),
    }
}

/// A number and a line feed.
fn number_line(alloc: Global, number: usize) -> Result<Vec<u8>, NoMemory> {
    let mut out = Vec::new(alloc);
    push_parts(
        alloc,
        &mut out,
        &[Part::Number(number as u64), Part::Text(b"\n")],
    )?;
    Ok(out)
}

/// How many lexemes a source has.
pub fn count(alloc: Global, text: &[u8]) -> Result<Vec<u8>, NoMemory> {
    match lexemes(alloc, text) {
        Ok(found) => number_line(alloc, found.len()),
        Err(fault) => refused_line(alloc, &fault),
    }
}
