//! Cases `same` and `equality`: whether symbols are one, and which types admit equality.

use crate::words::{Word, read_word, two_sides};
use case_files::{Part, push_parts};
use cm_base::NoMemory;
use semantic_objects::{Symbol, TyName};
use std::alloc::Global;
use unification::{Equality, symbol_equality};

/// The symbol of a word, if it is one.
fn symbol_of(alloc: Global, text: &[u8]) -> Result<Option<Symbol>, NoMemory> {
    match read_word(alloc, text)? {
        Some(Word::Arrow) => Ok(Some(Symbol::Arrow)),
        Some(Word::Name(name)) => Ok(Some(Symbol::Name(name))),
        Some(Word::Record(labels)) => Ok(Some(Symbol::Record(labels))),
        _ => Ok(None),
    }
}

/// How two things compare.
fn said(is_same: bool) -> &'static [u8] {
    if is_same { b"same" } else { b"other" }
}

/// Adds how two type names compare, and their owners.
fn push_names(
    alloc: Global,
    out: &mut Vec<u8>,
    this: &TyName,
    that: &TyName,
) -> Result<(), NoMemory> {
    let parts = [
        Part::Text(said(this.copy()?.is_same(that))),
        Part::Text(b" name, "),
        Part::Text(said(this.owner.is_same(&that.owner))),
        Part::Text(b" owner, "),
    ];
    push_parts(alloc, out, &parts)
}

/// How two symbols compare.
fn comparison(alloc: Global, this: &Symbol, that: &Symbol) -> Result<Vec<u8>, NoMemory> {
    let mut out = Vec::new(alloc);
    if let (Symbol::Name(this), Symbol::Name(that)) = (this, that) {
        push_names(alloc, &mut out, this, that)?;
    }
    let same = said(this.is_same(&that.copy()?));
    push_parts(alloc, &mut out, &[Part::Text(same), Part::Text(b" symbol")])?;
    Ok(out)
}

/// How the two symbols of a row compare.
pub fn compared(alloc: Global, text: &[u8]) -> Result<Option<Vec<u8>>, NoMemory> {
    let Some((left, right)) = two_sides(text) else {
        return Ok(None);
    };
    match (symbol_of(alloc, left)?, symbol_of(alloc, right)?) {
        (Some(this), Some(that)) => Ok(Some(comparison(alloc, &this, &that)?)),
        _ => Ok(None),
    }
}

/// Whether types under the symbol of a row admit equality.
pub fn equality(alloc: Global, text: &[u8]) -> Result<Option<Vec<u8>>, NoMemory> {
    let Some(symbol) = symbol_of(alloc, text)? else {
        return Ok(None);
    };
    let word: &[u8] = match symbol_equality(&symbol) {
        Equality::Never => b"never",
        Equality::Always => b"always",
        Equality::ByParts => b"where the parts do",
    };
    Ok(Some(Vec::from_slice(alloc, word)?))
}
