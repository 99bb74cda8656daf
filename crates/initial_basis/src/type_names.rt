//! The type names of the initial basis.

ghost use Rattle.std.specs.Prelude.{◌≡◌, ◌-◌, [], IfOk, length, map};
ghost use Rattle.std.specs.Option.{option_copied};
ghost use Rattle.initial_basis.specs.Phrases.{known};
ghost use Rattle.initial_basis.specs.Basis.{last_word, is_eqtype, name_of, names_from};

use crate::row::Row;
use crate::words::is_word;
use cm_base::{List, NoMemory, Text};
use semantic_objects::{Owner, TyName};
use std::alloc::Global;

/// A type name and the word that it goes by.
#[derive(Drop)]
pub(crate) struct NamedName {
    pub(crate) name: Text,
    pub(crate) is: TyName,
}

/// The last of some words. Where there is none it is refused as want of memory is; each row has one.
pub(crate) fn last_word(words: &List<Text>) -> Result<Text, NoMemory>
    ensures { IfOk result (λ last. last ≡ last_word words.now) }
{
    let len = words.len();
    if len == 0 {
        return Err(NoMemory);
    }
    match words.get(len - 1) {
        Some(word) => word.copy(),
        None => Err(NoMemory),
    }
}

/// How many arguments a type name has that stands behind them.
pub(crate) fn arity_of(words: &List<Text>) -> Result<u32, NoMemory>
    ensures { IfOk result (λ arity. arity ≡ length words.now - 1) }
{
    match u32::try_from(words.len().saturating_sub(1)) {
        Ok(arity) => Ok(arity),
        Err(_) => Err(NoMemory),
    }
}

/// Whether a row is for type names that admit equality.
fn is_eqtype(words: &List<Text>) -> bool
    ensures { result ≡ is_eqtype words.now }
{
    words.as_slice().iter().any(|word| is_word(word, b"eqtype"))
}

/// The type name of a row.
fn name_of(number: u64, row: &Row) -> Result<NamedName, NoMemory>
    ensures { IfOk result (λ name. name ≡ name_of number row.now) }
{
    Ok(NamedName {
        name: last_word(&row.names)?,
        is: TyName {
            owner: Owner::Basis,
            number,
            arity: arity_of(&row.names)?,
            eq: is_eqtype(&row.is),
        },
    })
}

/// The type names of rows, by number.
pub(crate) fn names_of(alloc: Global, rows: &List<Row>) -> Result<List<NamedName>, NoMemory>
    ensures { IfOk result (λ names. names ≡ names_from 0 rows.now) }
{
    let mut names = List::new(alloc);
    for row in rows.as_slice() {
        let number = names.len() as u64;
        names.add(name_of(number, row)?)?;
    }
    Ok(names)
}

/// The type names alone.
pub(crate) fn type_names(alloc: Global, rows: &List<NamedName>) -> Result<List<TyName>, NoMemory>
    ensures { IfOk result (λ names. names ≡ map (λ (row : NamedName). row.is) rows.now) }
{
    let mut names = List::new(alloc);
    for row in rows.as_slice() {
        names.add(row.is.copy()?)?;
    }
    Ok(names)
}

/// The type name of a word.
pub(crate) fn known<'a>(mut names: &'a [NamedName], word: &Text) -> Option<&'a TyName>
    ensures { option_copied result ≡ known names.entry.now word.now }
{
    while let [first, rest @ ..] = names {
        if is_word(&first.name, word.as_bytes()) {
            return Some(&first.is);
        }
        names = rest;
    }
    None
}
