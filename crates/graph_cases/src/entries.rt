//! Entries as a case writes them. A value: `v`, `c` or `x` for its status, `-` or `=` for each variable of its scheme,
//! `:` and its type. A type structure: the digit of its arity, `:` and its type, and behind `/` each constructor as its
//! name, the marks of its scheme, `:` and its type.

use crate::printed_types::push_type;
use crate::read_types::{binds_below, read_type};
use case_files::{Part, push_parts};
use cm_base::{List, NoMemory, Text};
use semantic_objects::{ConEntry, Scheme, TypeFn, TypeStr, ValueEntry, VidStatus};
use std::alloc::Global;

/// What stands before a colon, and what stands behind it.
fn at_colon(word: &[u8]) -> Option<(&[u8], &[u8])> {
    match word.iter().position(|byte| *byte == b':') {
        Some(at) => Some((&word[..at], &word[at + 1..])),
        None => None,
    }
}

/// The marks that are written.
fn read_marks(alloc: Global, letters: &[u8]) -> Result<List<bool>, NoMemory> {
    let mut marks = List::new(alloc);
    for letter in letters {
        marks.add(*letter == b'=')?;
    }
    Ok(marks)
}

/// The scheme of these marks and this type, as they are written.
fn read_scheme(alloc: Global, marks: &[u8], letters: &[u8]) -> Result<Option<Scheme>, NoMemory> {
    let marks = read_marks(alloc, marks)?;
    match read_type(alloc, letters)? {
        Some(body) => {
            if binds_below(&body, marks.len()) {
                Ok(Some(Scheme::make(marks, body)?))
            } else {
                Ok(None)
            }
        }
        None => Ok(None),
    }
}

/// The status of a letter.
fn status_of(letter: u8) -> Option<VidStatus> {
    match letter {
        b'v' => Some(VidStatus::Variable),
        b'c' => Some(VidStatus::Constructor),
        b'x' => Some(VidStatus::Exception),
        _ => None,
    }
}

/// The value that is written.
pub fn read_value(alloc: Global, word: &[u8]) -> Result<Option<ValueEntry>, NoMemory> {
    let Some((head, letters)) = at_colon(word) else {
        return Ok(None);
    };
    let Some((first, marks)) = head.split_first() else {
        return Ok(None);
    };
    let Some(status) = status_of(*first) else {
        return Ok(None);
    };
    match read_scheme(alloc, marks, letters)? {
        Some(scheme) => Ok(Some(ValueEntry { status, scheme })),
        None => Ok(None),
    }
}

/// Where the marks of a constructor begin.
fn name_end(head: &[u8]) -> usize {
    match head.iter().position(|byte| *byte == b'-' || *byte == b'=') {
        Some(at) => at,
        None => head.len(),
    }
}

/// The constructor that is written.
fn read_con(alloc: Global, word: &[u8]) -> Result<Option<ConEntry>, NoMemory> {
    let Some((head, letters)) = at_colon(word) else {
        return Ok(None);
    };
    let end = name_end(head);
    let name = Text::from_bytes(alloc, head.get(..end).unwrap_or(head))?;
    match read_scheme(alloc, head.get(end..).unwrap_or(b""), letters)? {
        Some(scheme) => Ok(Some(ConEntry { name, scheme })),
        None => Ok(None),
    }
}

/// The type function that is written.
pub fn read_function(alloc: Global, word: &[u8]) -> Result<Option<TypeFn>, NoMemory> {
    let Some((arity, letters)) = at_colon(word) else {
        return Ok(None);
    };
    let Some(arity) = case_files::number_of(arity) else {
        return Ok(None);
    };
    match read_type(alloc, letters)? {
        Some(body) => Ok(Some(TypeFn { arity, body })),
        None => Ok(None),
    }
}

/// The type structure that is written.
pub fn read_type_str(alloc: Global, word: &[u8]) -> Result<Option<TypeStr>, NoMemory> {
    let mut function = None;
    let mut cons = List::new(alloc);
    for piece in word.split(|byte| *byte == b'/') {
        if function.is_none() {
            function = read_function(alloc, piece)?;
            if function.is_none() {
                return Ok(None);
            }
        } else {
            match read_con(alloc, piece)? {
                Some(con) => cons.add(con)?,
                None => return Ok(None),
            }
        }
    }
    match function {
        Some(function) => Ok(Some(TypeStr { function, cons })),
        None => Ok(None),
    }
}

/// Adds the marks and the type of a scheme.
fn push_scheme(alloc: Global, out: &mut Vec<u8>, scheme: &Scheme) -> Result<(), NoMemory> {
    for mark in scheme.marks() {
        push_parts(alloc, out, &[Part::Text(if *mark { b"=" } else { b"-" })])?;
    }
    push_parts(alloc, out, &[Part::Text(b":")])?;
    push_type(alloc, out, scheme.body())
}

/// Adds a value as it is written.
pub fn push_value(alloc: Global, out: &mut Vec<u8>, value: &ValueEntry) -> Result<(), NoMemory> {
    let status: &[u8] = match value.status {
        VidStatus::Variable => b"v",
        VidStatus::Constructor => b"c",
        VidStatus::Exception => b"x",
    };
    push_parts(alloc, out, &[Part::Text(status)])?;
    push_scheme(alloc, out, &value.scheme)
}

/// Adds a type structure as it is written.
pub fn push_type_str(alloc: Global, out: &mut Vec<u8>, entry: &TypeStr) -> Result<(), NoMemory> {
    let arity = u64::from(entry.function.arity);
    push_parts(alloc, out, &[Part::Number(arity), Part::Text(b":")])?;
    push_type(alloc, out, &entry.function.body)?;
    for con in entry.cons.as_slice() {
        push_parts(
            alloc,
            out,
            &[Part::Text(b"/"), Part::Text(con.name.as_bytes())],
        )?;
        push_scheme(alloc, out, &con.scheme)?;
    }
    Ok(())
}
