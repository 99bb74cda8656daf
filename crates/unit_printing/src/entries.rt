//! Types and values.

use case_files::{Part, push_parts};
use cm_base::{NoMemory, Text};
use semantic_objects::{
    ConEntry, Owner, Symbol, TyName, TypeFn, TypeNode, TypeStr, ValueEntry, VidStatus,
};
use std::alloc::Global;
use type_printing::{NameNumbers, push_arguments, push_numbered_function, push_numbered_scheme};

/// Whether a type name has the variables of a type function as its arguments, each in its place.
fn has_own_arguments(function: &TypeFn, places: &[usize]) -> bool {
    let mut wanted = 0u32;
    for place in places {
        match function.body.nodes().get(*place) {
            Some(TypeNode::Bound(i)) if *i == wanted => wanted = wanted.saturating_add(1),
            _ => return false,
        }
    }
    wanted == function.arity
}

/// Whether a type name is one that the initial basis hasn't, and admits equality.
fn is_equality_name(name: &TyName) -> bool {
    match name.owner {
        Owner::Basis => false,
        _ => name.eq,
    }
}

/// The word that stands before a type: `eqtype` where its type function is a type name apart from those of the initial
/// basis, and that name admits equality.
fn word_of(function: &TypeFn) -> &'static [u8] {
    match function.body.nodes() {
        [.., TypeNode::Made(Symbol::Name(name), places)]
            if is_equality_name(name) && has_own_arguments(function, places.as_slice()) => {
            b" eqtype "
        }
        _ => b" type ",
    }
}

/// Adds a constructor of a datatype behind a word.
fn push_constructor<'x>(
    alloc: Global,
    out: &mut Vec<u8>,
    numbers: &mut NameNumbers,
    word: &'x [u8],
    con: &'x ConEntry,
) -> Result<(), NoMemory> {
    push_parts(
        alloc,
        out,
        &[
            Part::Text(word),
            Part::Text(con.name.as_bytes()),
            Part::Text(b" : "),
        ],
    )?;
    push_numbered_scheme(alloc, out, numbers, &con.scheme)
}

/// Adds a type: its arguments, its name and its type, and the constructors behind `with`.
pub(crate) fn push_type_entry(
    alloc: Global,
    out: &mut Vec<u8>,
    numbers: &mut NameNumbers,
    name: &Text,
    entry: &TypeStr,
) -> Result<(), NoMemory> {
    push_parts(alloc, out, &[Part::Text(word_of(&entry.function))])?;
    push_arguments(alloc, out, entry.function.arity)?;
    push_parts(
        alloc,
        out,
        &[Part::Text(name.as_bytes()), Part::Text(b" = ")],
    )?;
    push_numbered_function(alloc, out, numbers, &entry.function)?;
    let mut word: &[u8] = b" with ";
    for con in entry.cons.as_slice() {
        push_constructor(alloc, out, numbers, word, con)?;
        word = b" | ";
    }
    Ok(())
}

/// Adds a value: `val`, `con` or `exn` for its status, its name and its scheme.
pub(crate) fn push_value_entry(
    alloc: Global,
    out: &mut Vec<u8>,
    numbers: &mut NameNumbers,
    name: &Text,
    entry: &ValueEntry,
) -> Result<(), NoMemory> {
    let word: &[u8] = match entry.status {
        VidStatus::Variable => b" val ",
        VidStatus::Constructor => b" con ",
        VidStatus::Exception => b" exn ",
    };
    push_parts(
        alloc,
        out,
        &[
            Part::Text(word),
            Part::Text(name.as_bytes()),
            Part::Text(b" : "),
        ],
    )?;
    push_numbered_scheme(alloc, out, numbers, &entry.scheme)
}
