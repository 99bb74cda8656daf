//! Types for the small unifier, read and printed.

use crate::words::{Word, push_symbol, read_word, take_last};
use case_files::{Part, push_parts};
use cm_base::{List, NoMemory, Text};
use semantic_objects::Symbol;
use std::alloc::Global;
use unification::PlainType;

/// A field of a record type.
#[derive(Drop)]
struct Field {
    label: Text,
    part: PlainType,
}

/// Fields of these labels and types, in the byte order of the labels.
fn sorted_fields(
    alloc: Global,
    labels: List<Text>,
    parts: List<PlainType>,
) -> Result<Vec<Field>, NoMemory> {
    let mut fields = Vec::new(alloc);
    let mut rest = labels;
    for part in parts.into_vec().into_iter().rev() {
        if let Some(label) = rest.pop() {
            fields.push(Field { label, part })?;
        }
    }
    fields.sort_unstable_by(|a, b| a.label.cmp(&b.label));
    Ok(fields)
}

/// The record type of fields.
fn record_over(alloc: Global, fields: Vec<Field>) -> Result<PlainType, NoMemory> {
    let mut labels = List::new(alloc);
    let mut parts = List::new(alloc);
    for field in fields {
        let Field { label, part } = field;
        labels.add(label)?;
        parts.add(part)?;
    }
    Ok(PlainType::Made(Symbol::Record(labels), parts))
}

/// A record type of labels over the last types.
fn record_of(
    alloc: Global,
    open: &mut Vec<PlainType>,
    labels: List<Text>,
) -> Result<Option<PlainType>, NoMemory> {
    match take_last(open, labels.len())? {
        Some(parts) => {
            let fields = sorted_fields(alloc, labels, parts)?;
            Ok(Some(record_over(alloc, fields)?))
        }
        None => Ok(None),
    }
}

/// A symbol over so many of the last types.
fn type_over(
    open: &mut Vec<PlainType>,
    symbol: Symbol,
    count: usize,
) -> Result<Option<PlainType>, NoMemory> {
    match take_last(open, count)? {
        Some(parts) => Ok(Some(PlainType::Made(symbol, parts))),
        None => Ok(None),
    }
}

/// What a word makes of the last types; none where there are too few, or where it is a variable of a scheme.
fn type_of(
    alloc: Global,
    open: &mut Vec<PlainType>,
    word: Word,
) -> Result<Option<PlainType>, NoMemory> {
    match word {
        Word::Free(number) => Ok(Some(PlainType::Variable(number as usize))),
        Word::Bound(_) => Ok(None),
        Word::Arrow => type_over(open, Symbol::Arrow, 2),
        Word::Record(labels) => record_of(alloc, open, labels),
        Word::Name(name) => {
            let count = name.arity as usize;
            type_over(open, Symbol::Name(name), count)
        }
    }
}

/// Makes a type of a word and the last types. None where they make none.
fn make_word(
    alloc: Global,
    open: &mut Vec<PlainType>,
    text: &[u8],
) -> Result<Option<()>, NoMemory> {
    let Some(word) = read_word(alloc, text)? else {
        return Ok(None);
    };
    let Some(ty) = type_of(alloc, open, word)? else {
        return Ok(None);
    };
    open.push(ty)?;
    Ok(Some(()))
}

/// The type of a text, if it is one.
pub fn read_plain(alloc: Global, text: &[u8]) -> Result<Option<PlainType>, NoMemory> {
    let mut open = Vec::new(alloc);
    for word in text.split(|byte| *byte == b' ') {
        if make_word(alloc, &mut open, word)?.is_none() {
            return Ok(None);
        }
    }
    let ty = open.pop();
    Ok(if open.is_empty() { ty } else { None })
}

/// Adds a type behind its parts.
#[cycle(push)]
pub fn push_plain(alloc: Global, out: &mut Vec<u8>, ty: &PlainType) -> Result<(), NoMemory> {
    match ty {
        PlainType::Variable(number) => {
            push_parts(
                alloc,
                out,
                &[Part::Text(b"'"), Part::Number(*number as u64)],
            )
        }
        PlainType::Made(symbol, parts) => {
            push_all_plain(alloc, out, parts.as_slice())?;
            push_symbol(alloc, out, symbol)
        }
    }
}

#[cycle(push)]
fn push_all_plain(alloc: Global, out: &mut Vec<u8>, types: &[PlainType]) -> Result<(), NoMemory> {
    for ty in types {
        push_plain(alloc, out, ty)?;
        push_parts(alloc, out, &[Part::Text(b" ")])?;
    }
    Ok(())
}
