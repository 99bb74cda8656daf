//! The looks of a case at what became of its folder and at what a compiler was asked.

use crate::changes::Files;
use crate::stage::Answer;
use crate::texts::{in_a_line, number_text, path_and_word, path_lines};
use case_files::{CaseFault, Section};
use cm_base::{List, NoMemory, Text};
use cm_bytes::{pid_name, pid_of};
use std::alloc::Global;

/// What a compiler was asked: the units that it compiled, and those whose skeletons it gave, in order.
#[derive(Clone, Copy)]
pub struct Asked<'a> {
    pub units: &'a List<Text>,
    pub skeletons: &'a List<Text>,
}

/// A section that looks at what was done.
#[derive(Clone, Copy)]
pub enum Look {
    /// `size PATH COUNT`, or `size PATH none` where no file is to be there.
    Size,
    /// `hash PATH HEX`: the file's SHA-256.
    Hash,
    /// `bytes PATH`: the lines below are the file.
    Bytes,
    /// `asked UNIT..`: the units that were compiled, in order.
    Asked,
    /// `skeletons UNIT..`: the units whose skeletons were asked for, in order.
    Skeletons,
    /// `writes COUNT`: how many files were written.
    Writes,
    /// `wrote`: the lines below are the paths that were written, in order.
    Wrote,
}

/// The looks with their names.
const LOOKS: [(&[u8], Look); 7] = [
    (b"size", Look::Size),
    (b"hash", Look::Hash),
    (b"bytes", Look::Bytes),
    (b"asked", Look::Asked),
    (b"skeletons", Look::Skeletons),
    (b"writes", Look::Writes),
    (b"wrote", Look::Wrote),
];

/// The look of this name.
pub fn look_of(name: &[u8]) -> Option<Look> {
    for (known, look) in LOOKS {
        if known == name {
            return Some(look);
        }
    }
    None
}

/// The size of a file in decimal digits, or `none`.
fn size_of(alloc: Global, files: &Files, path: &[u8]) -> Result<Text, NoMemory> {
    match files.folder.get(&Text::from_bytes(alloc, path)?) {
        Some(bytes) => number_text(alloc, bytes.len()),
        None => Text::from_bytes(alloc, b"none"),
    }
}

/// The hash of a file in hex digits, or `none`.
fn hash_of(alloc: Global, files: &Files, path: &[u8]) -> Result<Text, NoMemory> {
    match files.folder.get(&Text::from_bytes(alloc, path)?) {
        Some(bytes) => pid_name(alloc, &pid_of(bytes)),
        None => Text::from_bytes(alloc, b"none"),
    }
}

/// The answer of a look at a file's size.
fn size_answer(alloc: Global, section: &Section, files: &Files) -> Result<Answer, CaseFault> {
    let (path, wanted) = path_and_word(section)?;
    Ok(Answer {
        wanted: Text::from_bytes(alloc, wanted)?,
        given: size_of(alloc, files, path)?,
    })
}

/// The answer of a look at a file's hash.
fn hash_answer(alloc: Global, section: &Section, files: &Files) -> Result<Answer, CaseFault> {
    let (path, wanted) = path_and_word(section)?;
    Ok(Answer {
        wanted: Text::from_bytes(alloc, wanted)?,
        given: hash_of(alloc, files, path)?,
    })
}

/// The answer of a look at a file's bytes. A file that isn't there is refused.
fn bytes_answer(alloc: Global, section: &Section, files: &Files) -> Result<Answer, CaseFault> {
    match files.folder.get(&section.words) {
        Some(bytes) => Ok(Answer {
            wanted: section.bytes(alloc)?,
            given: Text::from_bytes(alloc, bytes)?,
        }),
        None => Err(section.means_nothing()),
    }
}

/// The answer of a look at the words of its own line.
fn line_answer(section: &Section, given: Text) -> Result<Answer, CaseFault> {
    Ok(Answer {
        wanted: section.words.copy()?,
        given,
    })
}

/// What a look wants and sees. A look at a file that isn't there and ought to have bytes is refused.
pub fn look_at(
    alloc: Global,
    look: Look,
    section: &Section,
    files: &Files,
    asked: Asked<'_>,
) -> Result<Answer, CaseFault> {
    match look {
        Look::Size => size_answer(alloc, section, files),
        Look::Hash => hash_answer(alloc, section, files),
        Look::Bytes => bytes_answer(alloc, section, files),
        Look::Asked => line_answer(section, in_a_line(alloc, asked.units)?),
        Look::Skeletons => line_answer(section, in_a_line(alloc, asked.skeletons)?),
        Look::Writes => line_answer(section, number_text(alloc, files.written().len())?),
        Look::Wrote => Ok(Answer {
            wanted: section.bytes(alloc)?,
            given: path_lines(alloc, files.written())?,
        }),
    }
}
