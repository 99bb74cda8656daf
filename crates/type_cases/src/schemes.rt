//! Cases `scheme`: the scheme of marks and a type, with `=` for an equality variable, `-` for another one, and `none`.

use crate::closing::is_closed_by;
use crate::trees::{push_tree, read_tree};
use crate::words::two_sides;
use case_files::{Part, push_parts};
use cm_base::{List, NoMemory};
use semantic_objects::{Scheme, SchemeParts, TypeTree};
use std::alloc::Global;

/// The marks of a text.
fn read_marks(alloc: Global, text: &[u8]) -> Result<List<bool>, NoMemory> {
    let mut marks = List::new(alloc);
    for sign in text {
        match *sign {
            b'=' => marks.add(true)?,
            b'-' => marks.add(false)?,
            _ => {}
        }
    }
    Ok(marks)
}

/// Adds marks.
fn push_marks(alloc: Global, out: &mut Vec<u8>, marks: &[bool]) -> Result<(), NoMemory> {
    if marks.is_empty() {
        return push_parts(alloc, out, &[Part::Text(b"none")]);
    }
    for mark in marks {
        let sign: &[u8] = if *mark { b"=" } else { b"-" };
        push_parts(alloc, out, &[Part::Text(sign)])?;
    }
    Ok(())
}

/// Adds marks, and a tree behind them.
fn push_closed(
    alloc: Global,
    out: &mut Vec<u8>,
    marks: &[bool],
    body: &TypeTree,
) -> Result<(), NoMemory> {
    push_marks(alloc, out, marks)?;
    push_parts(alloc, out, &[Part::Text(b" ; ")])?;
    push_tree(alloc, out, body)
}

/// A scheme as it is, and its parts.
fn lines_of(alloc: Global, scheme: &Scheme) -> Result<Vec<u8>, NoMemory> {
    let mut out = Vec::new(alloc);
    push_closed(alloc, &mut out, scheme.marks(), scheme.body())?;
    let SchemeParts { marks, body } = scheme.parts(alloc)?;
    push_parts(alloc, &mut out, &[Part::Text(b" of ")])?;
    push_closed(alloc, &mut out, marks.as_slice(), &body)?;
    Ok(out)
}

/// The scheme of a row. Where a variable has no mark it is said that there is none.
pub fn closed(alloc: Global, text: &[u8]) -> Result<Option<Vec<u8>>, NoMemory> {
    let Some((left, right)) = two_sides(text) else {
        return Ok(None);
    };
    let marks = read_marks(alloc, left)?;
    let Some(body) = read_tree(alloc, right)? else {
        return Ok(None);
    };
    if !is_closed_by(&body, marks.len()) {
        return Ok(Some(Vec::from_slice(alloc, b"no scheme")?));
    }
    Ok(Some(lines_of(alloc, &Scheme::make(marks, body)?)?))
}
