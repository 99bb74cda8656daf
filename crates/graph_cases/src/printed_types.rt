//! Types as they are printed, in the letters in which they are written.

use case_files::{Part, push_parts};
use cm_base::{List, NoMemory};
use semantic_objects::{Owner, Symbol, TyName, TypeNode, TypeTree};
use std::alloc::Global;

/// The letter of a type name, and a question mark where it has none.
pub fn name_letter(name: &TyName) -> &'static [u8] {
    match &name.owner {
        Owner::Basis => match name.number {
            0 => b"n",
            1 => b"i",
            4 => b"l",
            7 => b"x",
            _ => b"?",
        },
        Owner::Unit(_) => match name.number {
            0 => b"u",
            _ => b"k",
        },
        Owner::Bound => match name.number {
            0 => b"m",
            _ => b"p",
        },
    }
}

/// The letter of a symbol.
fn symbol_letter(symbol: &Symbol) -> &'static [u8] {
    match symbol {
        Symbol::Arrow => b">",
        Symbol::Record(labels) if labels.len() == 2 => b"*",
        Symbol::Record(_) => b"?",
        Symbol::Name(name) => name_letter(name),
    }
}

/// The letters of a variable of a table.
fn variable_letter(number: usize) -> &'static [u8] {
    match number {
        0 => b"a",
        1 => b"b",
        2 => b"c",
        3 => b"d",
        4 => b"e",
        5 => b"f",
        6 => b"g",
        7 => b"h",
        _ => b"?",
    }
}

/// The letters of a symbol over parts, from those of the nodes before.
fn made_letters(
    alloc: Global,
    made: &List<Vec<u8>>,
    symbol: &Symbol,
    places: &List<usize>,
) -> Result<Vec<u8>, NoMemory> {
    let mut letters = Vec::new(alloc);
    for place in places.as_slice() {
        if let Some(part) = made.get(*place) {
            push_parts(alloc, &mut letters, &[Part::Text(part.as_slice())])?;
        }
    }
    push_parts(alloc, &mut letters, &[Part::Text(symbol_letter(symbol))])?;
    Ok(letters)
}

/// The letters of a node, from those of the nodes before.
fn node_letters(alloc: Global, made: &List<Vec<u8>>, node: &TypeNode) -> Result<Vec<u8>, NoMemory> {
    let mut letters = Vec::new(alloc);
    match node {
        TypeNode::Bound(i) => {
            push_parts(alloc, &mut letters, &[Part::Number(u64::from(*i))])?;
            Ok(letters)
        }
        TypeNode::Free(n) => {
            push_parts(alloc, &mut letters, &[Part::Text(variable_letter(*n))])?;
            Ok(letters)
        }
        TypeNode::Made(symbol, places) => made_letters(alloc, made, symbol, places),
    }
}

/// Adds the letters of a type.
pub fn push_type(alloc: Global, out: &mut Vec<u8>, tree: &TypeTree) -> Result<(), NoMemory> {
    let mut made = List::new(alloc);
    for node in tree.nodes() {
        let letters = node_letters(alloc, &made, node)?;
        made.add(letters)?;
    }
    match made.pop() {
        Some(letters) => push_parts(alloc, out, &[Part::Text(letters.as_slice())]),
        None => Ok(()),
    }
}
