//! Bytes as they are printed: in lines with margins, as a file of cases has them, and in parts.

use crate::bytes::push_all;
use cm_base::NoMemory;
use std::alloc::Global;

/// A part of what is printed.
#[derive(Clone, Copy)]
pub enum Part<'a> {
    /// These bytes.
    Text(&'a [u8]),
    /// A number in decimal digits.
    Number(u64),
}

/// Adds a number in decimal digits.
fn push_number(alloc: Global, out: &mut Vec<u8>, number: u64) -> Result<(), NoMemory> {
    let digits = format!(in alloc; "{number}")?;
    push_all(out, digits.as_bytes())
}

/// Adds a part.
fn push_part(alloc: Global, out: &mut Vec<u8>, part: Part<'_>) -> Result<(), NoMemory> {
    match part {
        Part::Number(number) => push_number(alloc, out, number),
        Part::Text(bytes) => push_all(out, bytes),
    }
}

/// Adds parts, one behind another. A printer that is one call of this is proved sooner than a call for each part.
pub fn push_parts(alloc: Global, out: &mut Vec<u8>, parts: &[Part<'_>]) -> Result<(), NoMemory> {
    for part in parts {
        push_part(alloc, out, *part)?;
    }
    Ok(())
}

/// Whether a byte is printed as itself: a blank or a sign of ASCII.
fn is_plain(byte: u8) -> bool {
    (b' '..=b'~').contains(&byte)
}

/// Whether a line without its line feed can stand behind `|` or `:`.
fn is_plain_line(line: &[u8]) -> bool {
    !line.ends_with(b" ") && line.iter().all(|byte| is_plain(*byte))
}

/// The hex digit of the low four bits.
fn hex_digit(value: u8) -> u8 {
    match value & 15 {
        small @ 0..=9 => b'0' + small,
        large => b'a' + (large - 10),
    }
}

/// Adds a byte as a line with escapes has it.
fn push_escaped(out: &mut Vec<u8>, byte: u8) -> Result<(), NoMemory> {
    match byte {
        b'\\' => push_all(out, b"\\\\"),
        b'\n' => push_all(out, b"\\n"),
        b'\r' => push_all(out, b"\\r"),
        b'\t' => push_all(out, b"\\t"),
        plain if is_plain(plain) => push_all(out, &[plain]),
        other => push_all(out, &[b'\\', b'x', hex_digit(other >> 4), hex_digit(other)]),
    }
}

/// Adds bytes as a line with escapes has them. A blank at their end is written by its number.
fn push_escapes(out: &mut Vec<u8>, line: &[u8]) -> Result<(), NoMemory> {
    for (at, byte) in line.iter().enumerate() {
        if *byte == b' ' && at + 1 == line.len() {
            push_all(out, b"\\x20")?;
        } else {
            push_escaped(out, *byte)?;
        }
    }
    Ok(())
}

/// Adds a line with a margin that stands for these bytes, and for a line feed behind them if it has one.
fn push_line(out: &mut Vec<u8>, line: &[u8], has_feed: bool) -> Result<(), NoMemory> {
    if is_plain_line(line) {
        push_all(out, if has_feed { b"|" } else { b":" })?;
        push_all(out, line)?;
        return push_all(out, b"\n");
    }
    push_all(out, b"\\")?;
    push_escapes(out, line)?;
    push_all(out, if has_feed { b"\\n\n" } else { b"\n" })
}

/// Adds bytes as lines with margins, which stand for exactly these bytes.
pub fn push_lines(out: &mut Vec<u8>, bytes: &[u8]) -> Result<(), NoMemory> {
    let mut rest = bytes;
    while let Some(at) = rest.iter().position(|byte| *byte == b'\n') {
        push_line(out, &rest[..at], true)?;
        rest = &rest[at + 1..];
    }
    if rest.is_empty() {
        return Ok(());
    }
    push_line(out, rest, false)
}
