//! What a lexeme is to the grammar.

ghost use Rattle.std.specs.Prelude.{◌≡◌, IfOk, is_some};
ghost use Rattle.phrase_reading.specs.Words.{is, word, is_star, is_star_text, is_tycon, name_of, long_of, label_of, tyvar_of, tycon_of, at, digits_of, last_part, only, named, or_empty};
ghost use Rattle.std.specs.Fmt.{decimal};

use cm_base::{List, NoMemory, Text};
use sml_lexer::{Lexeme, LexemeKind, Word};
use sml_trees::{At, Name};
use std::alloc::Global;

/// The reserved word or mark that a lexeme is, if it is one.
pub fn word(lexeme: &Lexeme) -> Option<Word>
    ensures { result ≡ word lexeme.now }
{
    match &lexeme.kind {
        LexemeKind::Reserved(text) => Word::of(text.as_bytes()),
        _ => None,
    }
}

/// Whether a lexeme is this reserved word or mark.
pub fn is(wanted: Word, lexeme: &Lexeme) -> bool
    ensures { result ≡ is wanted lexeme.now }
{
    match word(lexeme) {
        Some(found) => found.is(wanted),
        None => false,
    }
}

/// Where a lexeme begins.
pub fn at(lexeme: &Lexeme) -> At
    ensures { result ≡ at lexeme.now }
{
    At {
        line: lexeme.line,
        col: lexeme.col,
    }
}

/// Whether a name is `*`.
#[tactic(auto, unfolding(crate::specs::Words::is_star_text))]
pub fn is_star_text(text: &Text) -> bool
    ensures { result ≡ is_star_text text.now }
{
    text.as_bytes() == b"*".as_slice()
}

/// Whether a lexeme is the mark between the parts of a tuple type.
pub fn is_star(lexeme: &Lexeme) -> bool
    ensures { result ≡ is_star lexeme.now }
{
    match &lexeme.kind {
        LexemeKind::Name(parts) => match parts.as_slice() {
            [part] => is_star_text(part),
            _ => false,
        },
        _ => false,
    }
}

/// Whether the last part of a name is `*`.
#[tactic(auto, unfolding(crate::specs::Words::is_star_text))]
fn ends_in_star(parts: &[Text]) -> bool
    ensures { result ≡ is_star_text (last_part parts.now) }
{
    match parts.last() {
        Some(last) => is_star_text(last),
        None => false,
    }
}

/// Whether a lexeme is a type constructor.
pub fn is_tycon(lexeme: &Lexeme) -> bool
    ensures { result ≡ is_tycon lexeme.now }
{
    match &lexeme.kind {
        LexemeKind::Name(parts) => !ends_in_star(parts.as_slice()),
        _ => false,
    }
}

/// Another list of the same parts.
pub fn copy_parts(parts: &List<Text>) -> Result<List<Text>, NoMemory>
    ensures { IfOk result (λ copy. copy ≡ parts.now) }
{
    Ok(parts.clone()?)
}

/// The parts of the type constructor that a lexeme is, if it is one.
pub fn tycon_of(lexeme: &Lexeme) -> Result<Option<List<Text>>, NoMemory>
    ensures { IfOk result (λ found. found ≡ tycon_of lexeme.now) }
{
    match &lexeme.kind {
        LexemeKind::Name(parts) if !ends_in_star(parts.as_slice()) => Ok(Some(copy_parts(parts)?)),
        _ => Ok(None),
    }
}

/// The parts of the name that a lexeme is, if it is one.
pub fn long_of(lexeme: &Lexeme) -> Result<Option<List<Text>>, NoMemory>
    ensures { IfOk result (λ found. found ≡ long_of lexeme.now) }
{
    match &lexeme.kind {
        LexemeKind::Name(parts) => Ok(Some(copy_parts(parts)?)),
        _ => Ok(None),
    }
}

/// The one part of a name without structures before it.
fn only(parts: &[Text]) -> Result<Option<Text>, NoMemory>
    ensures { IfOk result (λ found. found ≡ only parts.now) }
{
    match parts {
        [part] => Ok(Some(part.copy()?)),
        _ => Ok(None),
    }
}

/// The name without structures before it that a lexeme is, if it is one.
pub fn name_of(lexeme: &Lexeme) -> Result<Option<Text>, NoMemory>
    ensures { IfOk result (λ found. found ≡ name_of lexeme.now) }
{
    match &lexeme.kind {
        LexemeKind::Name(parts) => only(parts.as_slice()),
        _ => Ok(None),
    }
}

/// Whether a lexeme is a name without structures before it.
pub fn is_name(lexeme: &Lexeme) -> bool
    ensures { result ≡ is_some (name_of lexeme.now) }
{
    match &lexeme.kind {
        LexemeKind::Name(parts) => match parts.as_slice() {
            [_] => true,
            _ => false,
        },
        _ => false,
    }
}

/// The type variable that a lexeme is, if it is one.
pub fn tyvar_of(lexeme: &Lexeme) -> Result<Option<Text>, NoMemory>
    ensures { IfOk result (λ found. found ≡ tyvar_of lexeme.now) }
{
    match &lexeme.kind {
        LexemeKind::TyVar(text) => Ok(Some(text.copy()?)),
        _ => Ok(None),
    }
}

/// A number's digits, where it may be a label and has no sign.
fn digits_of(alloc: Global, value: i64, label: bool) -> Result<Option<Text>, NoMemory>
    ensures { IfOk result (λ found. found ≡ digits_of value label) }
{
    if !label || value < 0 {
        return Ok(None);
    }
    Ok(Some(decimal(alloc, value.unsigned_abs())?))
}

/// A number in decimal digits.
fn decimal(alloc: Global, value: u64) -> Result<Text, NoMemory>
    ensures { IfOk result (λ text. text ≡ decimal value) }
{
    Ok(Text::from_vec(format!(in alloc; "{value}")?.into_bytes()))
}

/// The record label that a lexeme is, if it is one.
pub fn label_of(alloc: Global, lexeme: &Lexeme) -> Result<Option<Text>, NoMemory>
    ensures { IfOk result (λ found. found ≡ label_of lexeme.now) }
{
    match &lexeme.kind {
        LexemeKind::Name(parts) => only(parts.as_slice()),
        LexemeKind::Int { value, label } => digits_of(alloc, *value, *label),
        _ => Ok(None),
    }
}

/// The operator that a lexeme is, as a name at its place.
pub fn operator_name(alloc: Global, lexeme: &Lexeme) -> Result<Name, NoMemory>
    ensures { IfOk result (λ name. name ≡ named lexeme.now (or_empty (name_of lexeme.now))) }
{
    let text = match name_of(lexeme)? {
        Some(text) => text,
        None => Text::from_bytes(alloc, b"")?,
    };
    Ok(Name {
        text,
        line: lexeme.line,
        col: lexeme.col,
    })
}
