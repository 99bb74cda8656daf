//! Words: reserved words and marks, identifiers, long ones too, and type variables.

ghost use Rattle.std.specs.Prelude.{◌≡◌, ◌≤◌, ◌<◌, ◌++◌, ◌∷◌, [], IfOk, OnOk, length, map, slice_index};
ghost use Rattle.std.specs.List.{list_all};
ghost use Rattle.sml_lexer.specs.Names as spec;
ghost use Rattle.sml_lexer.specs.Fronts.{TakesWithin};

use crate::bytes::{byte_at, name_run, symbol_run};
use crate::front::Front;
use crate::lexeme::LexemeKind;
use crate::words::Word;
use cm_base::{List, NoMemory, Text};
use std::alloc::Global;

/// The most bytes of an identifier.
const MAX_IDENTIFIER: usize = 255;

/// Whether a word is reserved.
fn is_reserved(word: &[u8]) -> bool
    ensures { result ≡ spec.is_reserved word.now }
{
    Word::of(word).is_some()
}

/// The length of the longest word at the front: a letter and identifier bytes, or a run of symbols.
pub(crate) fn word_len(text: &[u8]) -> usize
    ensures value { result ≡ spec.word_len text.now }
    ensures within { result ≤ length text.now }
{
    if byte_at(text, 0).is_ascii_alphabetic() {
        name_run(text)
    } else {
        symbol_run(text)
    }
}

/// The length of the identifier at the front, or 0.
fn identifier_len(text: &[u8]) -> usize
    ensures value { result ≡ spec.identifier_len text.now }
    ensures within { result ≤ length text.now }
{
    let len = word_len(text);
    if is_reserved(&text[..len]) { 0 } else { len }
}

/// The length of the structure name at the front and the dot after it, where an identifier follows these, or 0.
#[tactic(auto, unfolding(crate::specs::Names::qualifier_len))]
fn qualifier_len(text: &[u8]) -> usize
    ensures value { result ≡ spec.qualifier_len text.now }
    ensures within { result ≤ length text.now }
{
    let len = identifier_len(text);
    let is_qualifier = byte_at(text, 0).is_ascii_alphabetic()
        && len > 0
        && byte_at(text, len) == b'.'
        && identifier_len(&text[len + 1..]) > 0;
    if is_qualifier { len + 1 } else { 0 }
}

/// Whether an identifier is no longer than the limit.
#[tactic(auto, unfolding(crate::specs::Names::is_short))]
fn is_short(part: &[u8]) -> bool
    ensures { result ≡ spec.is_short part.now }
{
    part.len() <= MAX_IDENTIFIER
}

/// Adds a part at the end.
fn add_part(alloc: Global, parts: &mut List<Text>, part: &[u8]) -> Result<(), NoMemory>
    ensures { OnOk result (parts.new ≡ parts.old ++ part.now ∷ []) }
{
    let part = Text::from_bytes(alloc, part)?;
    parts.add(part)
}

/// The parts of the long identifier at the front of a text, and how many bytes they take with the dots.
#[tactic(auto, unfolding(crate::specs::Names::name_parts))]
fn name_parts(alloc: Global, text: &[u8]) -> Result<(List<Text>, usize), NoMemory>
    requires { 0 < spec.identifier_len text.now }
    ensures parts { IfOk result (λ found. found.0 ≡ spec.name_parts text.now) }
    ensures len { IfOk result (λ found. found.1 ≡ spec.joined_len (spec.name_parts text.now)) }
    ensures within { IfOk result (λ found. (1 ≤ found.1) × (found.1 ≤ length text.now)) }
{
    let mut parts = List::new(alloc);
    let mut rest = text;
    let mut len = 0usize;
    let mut next = qualifier_len(text);
    while next > 0 {
        add_part(alloc, &mut parts, &rest[..next - 1])?;
        let (_qualifier, after) = rest.split_at(next);
        rest = after;
        len += next;
        next = qualifier_len(rest);
    }
    let last = identifier_len(rest);
    add_part(alloc, &mut parts, &rest[..last])?;
    Ok((parts, len + last))
}

/// Whether each part is no longer than the limit.
fn are_short(parts: &[Text]) -> bool
    ensures { result ≡ list_all spec.is_short parts.now }
{
    parts.iter().all(|part| is_short(part.as_bytes()))
}

/// The long identifier at the front of a text that begins with an identifier.
#[tactic(auto, unfolding(crate::specs::Names::name_front))]
fn name(alloc: Global, text: &[u8]) -> Result<Front, NoMemory>
    requires { 0 < spec.identifier_len text.now }
    ensures value { IfOk result (λ front. front ≡ spec.name_front text.now) }
    ensures within { IfOk result (λ front. TakesWithin front (length text.now)) }
{
    let (parts, len) = name_parts(alloc, text)?;
    if are_short(parts.as_slice()) {
        Ok(Front::Lexeme(LexemeKind::Name(parts), len))
    } else {
        Ok(Front::Refused(12))
    }
}

/// The reserved word or the identifier at the front of a text.
#[tactic(auto, unfolding(crate::specs::Names::word_front))]
pub(crate) fn word(alloc: Global, text: &[u8]) -> Result<Front, NoMemory>
    requires { 0 < spec.word_len text.now }
    ensures value { IfOk result (λ front. front ≡ spec.word_front text.now) }
    ensures within { IfOk result (λ front. TakesWithin front (length text.now)) }
{
    let len = word_len(text);
    let word = &text[..len];
    if is_reserved(word) {
        let word = Text::from_bytes(alloc, word)?;
        Ok(Front::Lexeme(LexemeKind::Reserved(word), len))
    } else {
        name(alloc, text)
    }
}

/// The type variable at the front of a text that begins with a prime.
#[tactic(auto, unfolding(crate::specs::Names::type_variable_front), using(crate::proofs::BytesLemmas::name_begins))]
pub(crate) fn type_variable(alloc: Global, text: &[u8]) -> Result<Front, NoMemory>
    requires { slice_index text.now 0 ≡ 39 }
    ensures value { IfOk result (λ front. front ≡ spec.type_variable_front text.now) }
    ensures within { IfOk result (λ front. TakesWithin front (length text.now)) }
{
    let len = name_run(text);
    let word = &text[..len];
    if is_short(word) {
        let word = Text::from_bytes(alloc, word)?;
        Ok(Front::Lexeme(LexemeKind::TyVar(word), len))
    } else {
        Ok(Front::Refused(12))
    }
}

/// Whether a byte is a mark by itself.
fn is_single_mark(byte: u8) -> bool
    ensures { result ≡ spec.is_single_mark byte }
{
    match byte {
        b'(' | b')' | b'[' | b']' | b'{' | b'}' | b',' | b';' | b'_' => true,
        _ => false,
    }
}

/// The length of the mark at the front that is made of other bytes than symbols, or 0.
#[tactic(auto, unfolding(crate::specs::Names::mark_len))]
pub(crate) fn mark_len(text: &[u8]) -> usize
    ensures value { result ≡ spec.mark_len text.now }
    ensures within { result ≤ length text.now }
{
    if is_single_mark(byte_at(text, 0)) {
        1
    } else if byte_at(text, 0) == b'.' && byte_at(text, 1) == b'.' && byte_at(text, 2) == b'.' {
        3
    } else {
        0
    }
}
