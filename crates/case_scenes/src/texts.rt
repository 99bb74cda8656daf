//! Texts that several kinds read from a section or show.

use case_files::{CaseFault, Part, Section, number_of, push_all, push_parts};
use cm_base::{Diag, List, NoMemory, Text};
use cm_bytes::{pid_name, pid_of};
use std::alloc::Global;

/// The most bytes of a text that is shown as it is.
const SHOWN: usize = 64;

/// A text so many times over.
pub fn repeated(alloc: Global, bytes: &[u8], count: u32) -> Result<Vec<u8>, NoMemory> {
    let mut all = Vec::new(alloc);
    if let [byte] = bytes {
        all.resize(count as usize, *byte)?;
        return Ok(all);
    }
    for _ in 0..count {
        push_all(&mut all, bytes)?;
    }
    Ok(all)
}

/// Adds a text with a number in the place of each `#`.
fn push_numbered(out: &mut Vec<u8>, bytes: &[u8], digits: &[u8]) -> Result<(), NoMemory> {
    for byte in bytes {
        if *byte == b'#' {
            push_all(out, digits)?;
        } else {
            out.push(*byte)?;
        }
    }
    Ok(())
}

/// A text so many times over, each time with its number, from 0, in the place of each `#`.
pub fn numbered(alloc: Global, bytes: &[u8], count: u32) -> Result<Vec<u8>, NoMemory> {
    let mut all = Vec::new(alloc);
    for nth in 0..count {
        let digits = number_text(alloc, nth as usize)?;
        push_numbered(&mut all, bytes, digits.as_bytes())?;
    }
    Ok(all)
}

/// The number that a word of a section writes.
pub fn counted(section: &Section, word: &[u8]) -> Result<u32, CaseFault> {
    match number_of(word) {
        Some(count) => Ok(count),
        None => Err(section.means_nothing()),
    }
}

/// The lines of a section, as often as its one word says; once where it has none.
pub fn lines_of(alloc: Global, section: &Section) -> Result<Text, CaseFault> {
    let lines = section.bytes(alloc)?;
    if section.words.as_bytes().is_empty() {
        return Ok(lines);
    }
    let count = counted(section, section.words.as_bytes())?;
    Ok(Text::from_vec(repeated(alloc, lines.as_bytes(), count)?))
}

/// A path and the word behind it.
pub fn path_and_word(section: &Section) -> Result<(&[u8], &[u8]), CaseFault> {
    let line = section.words.as_bytes();
    match line.iter().rposition(|byte| *byte == b' ') {
        Some(at) => Ok((&line[..at], &line[at + 1..])),
        None => Err(section.means_nothing()),
    }
}

/// A number in decimal digits.
pub fn number_text(alloc: Global, number: usize) -> Result<Text, NoMemory> {
    let mut out = Vec::new(alloc);
    push_parts(alloc, &mut out, &[Part::Number(number as u64)])?;
    Ok(Text::from_vec(out))
}

/// Paths, each in a line.
pub fn path_lines(alloc: Global, paths: &[Text]) -> Result<Text, NoMemory> {
    let mut out = Vec::new(alloc);
    for path in paths {
        push_all(&mut out, path.as_bytes())?;
        push_all(&mut out, b"\n")?;
    }
    Ok(Text::from_vec(out))
}

/// Names in one line, with a blank between each two.
pub fn in_a_line(alloc: Global, names: &List<Text>) -> Result<Text, NoMemory> {
    let mut out = Vec::new(alloc);
    for name in names.as_slice() {
        if !out.is_empty() {
            push_all(&mut out, b" ")?;
        }
        push_all(&mut out, name.as_bytes())?;
    }
    Ok(Text::from_vec(out))
}

/// Adds a text: as it is, or its size and its hash where it is long.
pub fn push_shown(alloc: Global, out: &mut Vec<u8>, bytes: &[u8]) -> Result<(), NoMemory> {
    if bytes.len() <= SHOWN {
        return push_all(out, bytes);
    }
    let hash = pid_name(alloc, &pid_of(bytes))?;
    let parts = [
        Part::Number(bytes.len() as u64),
        Part::Text(b" bytes of hash "),
        Part::Text(hash.as_bytes()),
    ];
    push_parts(alloc, out, &parts)
}

/// Adds the line of a diagnostic, as a command prints it.
pub fn push_diag(alloc: Global, out: &mut Vec<u8>, diag: &Diag) -> Result<(), NoMemory> {
    let place = [
        Part::Text(diag.at.file.as_bytes()),
        Part::Text(b":"),
        Part::Number(u64::from(diag.at.line)),
        Part::Text(b":"),
        Part::Number(u64::from(diag.at.col)),
        Part::Text(b": error "),
        Part::Number(u64::from(diag.number)),
    ];
    push_parts(alloc, out, &place)?;
    for name in diag.names.as_slice() {
        push_parts(alloc, out, &[Part::Text(b" "), Part::Text(name.as_bytes())])?;
    }
    push_all(out, b"\n")
}
