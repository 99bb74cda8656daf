//! The texts that a case tries: one, several that give the same, or rows with an answer each.

use crate::bytes::with_feed;
use crate::case::{Case, Piece, Section};
use crate::fault::{CaseFault, Wrong};
use cm_base::{List, NoMemory, Text};
use std::alloc::Global;

/// A text that is tried, and where it stands.
#[derive(Drop)]
pub struct Input {
    pub line: u32,
    pub bytes: Text,
}

/// A row: where it stands, the text that is tried, and the line that is wanted for it.
#[derive(Drop)]
pub struct Row {
    pub line: u32,
    pub text: Text,
    pub wanted: Text,
}

/// A section's bytes as one text.
fn whole(alloc: Global, section: &Section) -> Result<List<Input>, NoMemory> {
    let mut inputs = List::new(alloc);
    inputs.add(Input {
        line: section.line,
        bytes: section.bytes(alloc)?,
    })?;
    Ok(inputs)
}

/// The text of a line.
fn input_of(piece: &Piece) -> Result<Input, NoMemory> {
    Ok(Input {
        line: piece.line,
        bytes: piece.bytes.copy()?,
    })
}

/// The lines of a section, each a text. A section without lines is refused.
fn each_line(alloc: Global, section: &Section) -> Result<List<Input>, CaseFault> {
    if section.pieces.is_empty() {
        return Err(CaseFault::Wrong(section.line, Wrong::Missing));
    }
    let mut inputs = List::new(alloc);
    for piece in section.pieces.as_slice() {
        inputs.add(input_of(piece)?)?;
    }
    Ok(inputs)
}

/// The texts of a case: its section `text`, or each line of its section `each`. It has one of the two.
pub fn inputs_of(alloc: Global, case: &Case) -> Result<List<Input>, CaseFault> {
    match (case.find(b"text")?, case.find(b"each")?) {
        (Some(text), None) => Ok(whole(alloc, text)?),
        (None, Some(each)) => each_line(alloc, each),
        (None, None) => Err(CaseFault::Wrong(case.line, Wrong::Missing)),
        (Some(_text), Some(each)) => Err(CaseFault::Wrong(each.line, Wrong::UnknownSection)),
    }
}

/// What stands before the first arrow of a line, and what behind it.
fn at_arrow(line: &[u8]) -> Option<(&[u8], &[u8])> {
    for at in 0..line.len() {
        let (text, rest) = line.split_at(at);
        if let [b' ', b'-', b'>', b' ', wanted @ ..] = rest {
            return Some((text, wanted));
        }
    }
    None
}

/// The row of a line.
fn row_of(alloc: Global, piece: &Piece) -> Result<Row, CaseFault> {
    let Some((text, wanted)) = at_arrow(piece.bytes.as_bytes()) else {
        return Err(CaseFault::Wrong(piece.line, Wrong::NoArrow));
    };
    Ok(Row {
        line: piece.line,
        text: Text::from_bytes(alloc, text)?,
        wanted: Text::from_vec(with_feed(alloc, wanted)?),
    })
}

/// The rows of a section. A section without rows is refused.
pub fn rows_of(alloc: Global, section: &Section) -> Result<List<Row>, CaseFault> {
    if section.pieces.is_empty() {
        return Err(CaseFault::Wrong(section.line, Wrong::Missing));
    }
    let mut rows = List::new(alloc);
    for piece in section.pieces.as_slice() {
        rows.add(row_of(alloc, piece)?)?;
    }
    Ok(rows)
}
