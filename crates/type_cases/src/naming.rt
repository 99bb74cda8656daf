//! Type names as cases write them: a word for each of the initial basis, and `OWNER/NUMBER/ARITY/EQUALITY` for others.

use case_files::{Part, number_of, push_parts};
use cm_base::{NoMemory, Text};
use semantic_objects::{Owner, TyName};
use std::alloc::Global;

/// The type names of the basis by their numbers: the word of each, how many arguments it takes, and whether it admits
/// equality.
const BASIS: [(&[u8], u32, bool); 9] = [
    (b"int", 0, true),
    (b"bool", 0, true),
    (b"string", 0, true),
    (b"char", 0, true),
    (b"list", 1, true),
    (b"option", 1, true),
    (b"ref", 1, true),
    (b"exn", 0, false),
    (b"order", 0, true),
];

/// The type name of the basis that a word is for.
fn basis_name(word: &[u8]) -> Option<TyName> {
    for number in 0..BASIS.len() {
        let (known, arity, eq) = BASIS[number];
        if known == word {
            return Some(TyName {
                owner: Owner::Basis,
                number: number as u64,
                arity,
                eq,
            });
        }
    }
    None
}

/// The owner of a word: `basis`, `bound`, or else a unit.
fn owner_of(alloc: Global, word: &[u8]) -> Result<Owner, NoMemory> {
    match word {
        b"basis" => Ok(Owner::Basis),
        b"bound" => Ok(Owner::Bound),
        unit => Ok(Owner::Unit(Text::from_bytes(alloc, unit)?)),
    }
}

/// Whether `eq` or `no` stands there.
fn equality_of(word: &[u8]) -> Option<bool> {
    match word {
        b"eq" => Some(true),
        b"no" => Some(false),
        _ => None,
    }
}

/// What stands before the first slash, and what behind it.
fn at_slash(text: &[u8]) -> Option<(&[u8], &[u8])> {
    match text.iter().position(|byte| *byte == b'/') {
        Some(at) => Some((&text[..at], &text[at + 1..])),
        None => None,
    }
}

/// A number, an arity and an equality between slashes.
fn facts_of(text: &[u8]) -> Option<(u32, u32, bool)> {
    let (number, rest) = at_slash(text)?;
    let (arity, eq) = at_slash(rest)?;
    Some((number_of(number)?, number_of(arity)?, equality_of(eq)?))
}

/// The type name of a word, if it is one.
pub fn read_name(alloc: Global, word: &[u8]) -> Result<Option<TyName>, NoMemory> {
    let Some((owner, facts)) = at_slash(word) else {
        return Ok(basis_name(word));
    };
    match facts_of(facts) {
        Some((number, arity, eq)) => Ok(Some(TyName {
            owner: owner_of(alloc, owner)?,
            number: u64::from(number),
            arity,
            eq,
        })),
        None => Ok(None),
    }
}

/// The word of a type name of the basis.
fn basis_word(name: &TyName) -> Option<&'static [u8]> {
    for (known, _, _) in BASIS {
        if let Some(same) = basis_name(known) {
            if same.is_same(name) {
                return Some(known);
            }
        }
    }
    None
}

/// The word of an owner.
fn owner_word(owner: &Owner) -> &[u8] {
    match owner {
        Owner::Basis => b"basis",
        Owner::Bound => b"bound",
        Owner::Unit(name) => name.as_bytes(),
    }
}

/// Adds a type name.
pub fn push_name(alloc: Global, out: &mut Vec<u8>, name: &TyName) -> Result<(), NoMemory> {
    if let Some(word) = basis_word(name) {
        return push_parts(alloc, out, &[Part::Text(word)]);
    }
    let parts = [
        Part::Text(owner_word(&name.owner)),
        Part::Text(b"/"),
        Part::Number(name.number),
        Part::Text(b"/"),
        Part::Number(u64::from(name.arity)),
        Part::Text(if name.eq { b"/eq" } else { b"/no" }),
    ];
    push_parts(alloc, out, &parts)
}
