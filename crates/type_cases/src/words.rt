//! The words of types. A type stands behind its parts, so it is read with a list of types and no recursion: `'0` and
//! `%0` are variables of a table and of a scheme, `fn` is a function type of the two types before it, a type name takes
//! its arguments from before it, and `<b,a>` is a record type with a type before it for each label.

ghost use Rattle.std.specs.Prelude.{◌≡◌, length, IfOk, IfSome};

use crate::naming::{push_name, read_name};
use case_files::{Part, number_of, push_parts};
use cm_base::{List, NoMemory, Text};
use semantic_objects::{Symbol, TyName};
use std::alloc::Global;

/// A word of a type.
#[derive(Drop)]
pub enum Word {
    Free(u32),
    Bound(u32),
    Arrow,
    Name(TyName),
    Record(List<Text>),
}

/// Adds a label.
fn add_label(alloc: Global, labels: &mut List<Text>, label: &[u8]) -> Result<(), NoMemory> {
    labels.add(Text::from_bytes(alloc, label)?)
}

/// The labels between brackets, as they stand there.
fn labels_of(alloc: Global, text: &[u8]) -> Result<List<Text>, NoMemory> {
    let mut labels = List::new(alloc);
    if text.is_empty() {
        return Ok(labels);
    }
    for label in text.split(|byte| *byte == b',') {
        add_label(alloc, &mut labels, label)?;
    }
    Ok(labels)
}

/// The word of a text, if it is one.
pub fn read_word(alloc: Global, text: &[u8]) -> Result<Option<Word>, NoMemory> {
    match text {
        [b'\'', number @ ..] => Ok(number_of(number).map(Word::Free)),
        [b'%', number @ ..] => Ok(number_of(number).map(Word::Bound)),
        [b'<', labels @ .., b'>'] => Ok(Some(Word::Record(labels_of(alloc, labels)?))),
        b"fn" => Ok(Some(Word::Arrow)),
        name => Ok(read_name(alloc, name)?.map(Word::Name)),
    }
}

/// What stands before ` ; `, and what behind it.
pub fn two_sides(text: &[u8]) -> Option<(&[u8], &[u8])> {
    for at in 0..text.len() {
        let (left, rest) = text.split_at(at);
        if let [b' ', b';', b' ', right @ ..] = rest {
            return Some((left, right));
        }
    }
    None
}

/// Takes the last items away, in their order; none where there are fewer.
pub fn take_last<T: Drop>(open: &mut Vec<T>, count: usize) -> Result<Option<List<T>>, NoMemory>
    ensures { IfOk result (λ found. IfSome found (λ items. length items ≡ count)) }
{
    if open.len() < count {
        return Ok(None);
    }
    let at = open.len() - count;
    Ok(Some(List::from_vec(open.split_off(at)?)))
}

/// Adds labels between brackets.
fn push_labels(alloc: Global, out: &mut Vec<u8>, labels: &List<Text>) -> Result<(), NoMemory> {
    push_parts(alloc, out, &[Part::Text(b"<")])?;
    for (at, label) in labels.as_slice().iter().enumerate() {
        let comma: &[u8] = if at == 0 { b"" } else { b"," };
        push_parts(
            alloc,
            out,
            &[Part::Text(comma), Part::Text(label.as_bytes())],
        )?;
    }
    push_parts(alloc, out, &[Part::Text(b">")])
}

/// Adds a symbol.
pub fn push_symbol(alloc: Global, out: &mut Vec<u8>, symbol: &Symbol) -> Result<(), NoMemory> {
    match symbol {
        Symbol::Arrow => push_parts(alloc, out, &[Part::Text(b"fn")]),
        Symbol::Record(labels) => push_labels(alloc, out, labels),
        Symbol::Name(name) => push_name(alloc, out, name),
    }
}
