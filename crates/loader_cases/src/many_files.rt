//! Files that a case numbers.

use case_files::{CaseFault, Part, Section, number_of, push_parts};
use cm_base::{MemFolder, NoMemory, Text};
use std::alloc::Global;

/// Adds a byte of a text that is numbered: `#` stands for its number, and `^` for the one after it.
fn push_byte(alloc: Global, out: &mut Vec<u8>, byte: u8, number: u32) -> Result<(), NoMemory> {
    match byte {
        b'#' => push_parts(alloc, out, &[Part::Number(u64::from(number))]),
        b'^' => push_parts(alloc, out, &[Part::Number(u64::from(number) + 1)]),
        byte => {
            out.push(byte)?;
            Ok(())
        }
    }
}

/// A text of a number.
fn numbered(alloc: Global, text: &[u8], number: u32) -> Result<Text, NoMemory> {
    let mut out = Vec::new(alloc);
    for byte in text {
        push_byte(alloc, &mut out, *byte, number)?;
    }
    Ok(Text::from_vec(out))
}

/// A path of a number, and how many there are.
fn path_and_count(section: &Section) -> Option<(&[u8], u32)> {
    let words = section.words.as_bytes();
    let at = words.iter().rposition(|byte| *byte == b' ')?;
    let count = number_of(&words[at + 1..])?;
    Some((&words[..at], count))
}

/// `files PATH COUNT`: so many files, each with the lines below, where `#` in the path and in the lines stands for its
/// number, from 0, and `^` for the next one.
pub fn put_files(
    alloc: Global,
    folder: &mut MemFolder,
    section: &Section,
) -> Result<(), CaseFault> {
    let Some((path, count)) = path_and_count(section) else {
        return Err(section.means_nothing());
    };
    let lines = section.bytes(alloc)?;
    for number in 0..count {
        let path = numbered(alloc, path, number)?;
        let bytes = numbered(alloc, lines.as_bytes(), number)?;
        folder.put(&path, bytes.as_bytes())?;
    }
    Ok(())
}
