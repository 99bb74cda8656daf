//! Rows of a table: a text, ` ==> `, and the line that is answered to it.

use case_files::{CaseFault, Piece, Wrong, push_all};
use cm_base::{NoMemory, Text};
use std::alloc::Global;

/// A row: its text as a line of the file, and the line that is wanted for it.
#[derive(Drop)]
pub struct TableRow {
    pub text: Piece,
    pub wanted: Text,
}

/// A line in two at its first ` ==> `.
fn at_arrow(line: &[u8]) -> Option<(&[u8], &[u8])> {
    for at in 0..line.len() {
        let (text, rest) = line.split_at(at);
        if let Some(wanted) = rest.strip_prefix(b" ==> ") {
            return Some((text, wanted));
        }
    }
    None
}

/// A line with a line feed behind it.
fn with_line_feed(alloc: Global, line: &[u8]) -> Result<Text, NoMemory> {
    let mut all = Vec::from_slice(alloc, line)?;
    push_all(&mut all, b"\n")?;
    Ok(Text::from_vec(all))
}

/// The row of a line.
pub fn row_of(alloc: Global, piece: &Piece) -> Result<TableRow, CaseFault> {
    match at_arrow(piece.bytes.as_bytes()) {
        Some((text, wanted)) => Ok(TableRow {
            text: Piece {
                line: piece.line,
                written: piece.written.copy()?,
                bytes: Text::from_bytes(alloc, text)?,
            },
            wanted: with_line_feed(alloc, wanted)?,
        }),
        None => Err(CaseFault::Wrong(piece.line, Wrong::NoArrow)),
    }
}
