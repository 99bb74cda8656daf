//! The text that a case tries: the bytes of its sections `text` and `times`, in order, and of a line in the place
//! of its section `each` or `table`.

use case_files::{Case, CaseFault, Section, Wrong, number_of, push_all};
use cm_base::NoMemory;
use std::alloc::Global;

/// The section whose lines each make a text: `each` or `table`, of which a case has one at most.
pub fn varying(case: &Case) -> Result<Option<&Section>, CaseFault> {
    match (case.find(b"each")?, case.find(b"table")?) {
        (Some(_each), Some(table)) => Err(CaseFault::Wrong(table.line, Wrong::UnknownSection)),
        (Some(section), None) | (None, Some(section)) => with_lines(section),
        (None, None) => Ok(None),
    }
}

/// A section that has lines.
fn with_lines(section: &Section) -> Result<Option<&Section>, CaseFault> {
    if section.pieces.is_empty() {
        return Err(CaseFault::Wrong(section.line, Wrong::Missing));
    }
    Ok(Some(section))
}

/// The number that a section has behind its name.
pub fn number_behind(section: &Section) -> Result<u32, CaseFault> {
    match number_of(section.words.as_bytes()) {
        Some(number) => Ok(number),
        None => Err(section.means_nothing()),
    }
}

/// Adds bytes so many times.
fn push_times(out: &mut Vec<u8>, bytes: &[u8], count: usize) -> Result<(), NoMemory> {
    for _ in 0..count {
        push_all(out, bytes)?;
    }
    Ok(())
}

/// Adds what a section is of the text.
fn push_section(
    alloc: Global,
    out: &mut Vec<u8>,
    section: &Section,
    line: &[u8],
    more: usize,
) -> Result<(), CaseFault> {
    match section.name.as_bytes() {
        b"text" => Ok(push_all(out, section.bytes(alloc)?.as_bytes())?),
        b"times" => push_repeated(alloc, out, section, more),
        b"each" | b"table" => Ok(push_all(out, line)?),
        _ => Ok(()),
    }
}

/// Adds the bytes of a section as many times as it says, and so many times more.
fn push_repeated(
    alloc: Global,
    out: &mut Vec<u8>,
    section: &Section,
    more: usize,
) -> Result<(), CaseFault> {
    let count = (number_behind(section)? as usize).saturating_add(more);
    let bytes = section.bytes(alloc)?;
    Ok(push_times(out, bytes.as_bytes(), count)?)
}

/// The text of a case: with this line in the place of `each` or `table`, and so many times more of what is repeated.
pub fn text_of(alloc: Global, case: &Case, line: &[u8], more: usize) -> Result<Vec<u8>, CaseFault> {
    let mut out = Vec::new(alloc);
    for section in case.sections.as_slice() {
        push_section(alloc, &mut out, section, line, more)?;
    }
    Ok(out)
}
