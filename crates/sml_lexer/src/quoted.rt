//! Strings and characters, with the bytes that they stand for.

ghost use Rattle.std.specs.Prelude.{◌≡◌, ◌≤◌, ◌<◌, ◌++◌, IfOk, IfSome, OnOk, Some, None, if◌then◌else◌, length, slice_index, true};
ghost use Rattle.std.specs.Char.{digit_value, is_digit};
ghost use Rattle.sml_lexer.specs.Quoted as spec;
ghost use Rattle.sml_lexer.specs.Fronts.{TakesWithin};

use crate::bytes::{blank_run, byte_at, is_blank};
use crate::front::Front;
use crate::lexeme::LexemeKind;
use crate::name::word;
use cm_base::{NoMemory, Text};
use std::alloc::Global;

/// One item of a string: the byte that it stands for, if it isn't a gap, and how many bytes it takes.
#[derive(Clone, Copy, Debug)]
pub(crate) struct Item {
    pub(crate) byte: Option<u8>,
    pub(crate) len: usize,
}

/// Whether a byte stands for itself in a string.
fn is_plain(byte: u8) -> bool
    ensures { result ≡ spec.is_plain byte }
{
    byte >= 32 && byte <= 126 && byte != b'"' && byte != b'\\' || byte >= 128
}

/// The byte that a letter after a backslash stands for.
fn simple_escape(letter: u8) -> Option<u8>
    ensures { result ≡ spec.simple_escape letter }
{
    match letter {
        b'a' => Some(7),
        b'b' => Some(8),
        b't' => Some(b'\t'),
        b'n' => Some(b'\n'),
        b'v' => Some(11),
        b'f' => Some(12),
        b'r' => Some(b'\r'),
        b'\\' | b'"' => Some(letter),
        _ => None,
    }
}

/// `^` and a byte from 64 to 95, after a backslash.
fn control_escape(byte: u8) -> Option<Item>
    ensures { result ≡ spec.control_escape byte }
{
    if byte >= 64 && byte <= 95 {
        Some(Item {
            byte: Some(byte - 64),
            len: 3,
        })
    } else {
        None
    }
}

/// The value of a decimal digit.
fn digit(byte: u8) -> Option<u32>
    ensures value { result ≡ (if is_digit byte 10 then Some (digit_value byte) else None) }
    ensures small { IfSome result (λ digit. digit < 10) }
{
    char::from(byte).to_digit(10)
}

/// Three decimal digits, after a backslash.
#[tactic(auto, unfolding(crate::specs::Quoted::decimal_escape))]
fn decimal_escape(text: &[u8]) -> Option<Item>
    ensures { result ≡ spec.decimal_escape text.now }
{
    let hundreds = digit(byte_at(text, 1))?;
    let tens = digit(byte_at(text, 2))?;
    let ones = digit(byte_at(text, 3))?;
    let value = 100 * hundreds + 10 * tens + ones;
    if value > 255 {
        return None;
    }
    Some(Item {
        byte: Some(value as u8),
        len: 4,
    })
}

/// Separators between two backslashes.
#[tactic(auto, unfolding(crate::specs::Quoted::gap_item))]
fn gap_item(text: &[u8]) -> Option<Item>
    requires { 1 ≤ length text.now }
    ensures { result ≡ spec.gap_item text.now }
{
    let len = blank_run(&text[1..]);
    if byte_at(text, len + 1) == b'\\' {
        Some(Item {
            byte: None,
            len: len + 2,
        })
    } else {
        None
    }
}

/// The escape sequence at the front of a text that begins with a backslash.
#[tactic(auto, unfolding(crate::specs::Quoted::escape_item))]
fn escape_item(text: &[u8]) -> Option<Item>
    requires { 1 ≤ length text.now }
    ensures { result ≡ spec.escape_item text.now }
{
    let letter = byte_at(text, 1);
    if letter == b'^' {
        control_escape(byte_at(text, 2))
    } else if letter.is_ascii_digit() {
        decimal_escape(text)
    } else if is_blank(letter) {
        gap_item(text)
    } else {
        simple_escape(letter).map(|byte| Item {
            byte: Some(byte),
            len: 2,
        })
    }
}

/// The item at the front of a text.
#[tactic(auto, unfolding(crate::specs::Quoted::item), using(crate::proofs::QuotedLemmas::escapes))]
fn next_item(text: &[u8]) -> Option<Item>
    ensures value { result ≡ spec.item text.now }
    ensures within { IfSome result (λ i. (1 ≤ i.len) × (i.len ≤ length text.now)) }
{
    let byte = byte_at(text, 0);
    if is_plain(byte) {
        Some(Item {
            byte: Some(byte),
            len: 1,
        })
    } else if byte == b'\\' {
        escape_item(text)
    } else {
        None
    }
}

/// Adds the byte that an item stands for.
fn add_byte(out: &mut Vec<u8>, byte: Option<u8>) -> Result<(), NoMemory>
    ensures { OnOk result (out.new.items ≡ out.old.items ++ spec.item_bytes byte) }
{
    if let Some(byte) = byte {
        out.push(byte)?;
    }
    Ok(())
}

/// The items of a string and the quote that ends it: the bytes that they stand for, and how many bytes they take.
fn items(alloc: Global, text: &[u8]) -> Result<Option<(Text, usize)>, NoMemory>
    ensures value { IfOk result (λ found. found ≡ spec.items_after 0 text.now) }
    ensures within { IfOk result (λ found. IfSome found (λ s. s.1 ≤ length text.now)) }
{
    let mut out = Vec::new(alloc);
    let mut rest = text;
    let mut len = 0usize;
    while let Some(next) = next_item(rest) {
        add_byte(&mut out, next.byte)?;
        let (_item, after) = rest.split_at(next.len);
        rest = after;
        len += next.len;
    }
    if byte_at(rest, 0) == b'"' {
        Ok(Some((Text::from_vec(out), len + 1)))
    } else {
        Ok(None)
    }
}

/// The string at the front of a text that begins with a quote, and how many bytes it takes.
#[tactic(auto, unfolding(crate::specs::Quoted::quoted))]
fn quoted(alloc: Global, text: &[u8]) -> Result<Option<(Text, usize)>, NoMemory>
    requires { slice_index text.now 0 ≡ 34 }
    ensures value { IfOk result (λ found. found ≡ spec.quoted text.now) }
    ensures within { IfOk result (λ found. IfSome found (λ s. (1 ≤ s.1) × (s.1 ≤ length text.now))) }
{
    match items(alloc, &text[1..])? {
        Some((bytes, len)) => Ok(Some((bytes, 1 + len))),
        None => Ok(None),
    }
}

/// The string at the front of a text that begins with a quote.
#[tactic(auto, unfolding(crate::specs::Quoted::string_front))]
pub(crate) fn string(alloc: Global, text: &[u8]) -> Result<Front, NoMemory>
    requires { slice_index text.now 0 ≡ 34 }
    ensures value { IfOk result (λ front. front ≡ spec.string_front text.now) }
    ensures within { IfOk result (λ front. TakesWithin front (length text.now)) }
{
    match quoted(alloc, text)? {
        Some((bytes, len)) => Ok(Front::Lexeme(LexemeKind::Str(bytes), len)),
        None => Ok(Front::Refused(20)),
    }
}

/// Whether a text begins with `#` and a quote.
pub(crate) fn begins_character(text: &[u8]) -> bool
    ensures { result ≡ spec.begins_character text.now }
{
    byte_at(text, 0) == b'#' && byte_at(text, 1) == b'"'
}

/// The byte of a text that has one alone.
fn one_byte(text: &[u8]) -> Option<u8>
    ensures { result ≡ spec.one_byte text.now }
{
    match text {
        [byte] => Some(*byte),
        _ => None,
    }
}

/// The character at the front of a text that begins with `#` and a quote, or else the mark `#`.
#[tactic(auto, unfolding(crate::specs::Quoted::character_front))]
pub(crate) fn character(alloc: Global, text: &[u8]) -> Result<Front, NoMemory>
    requires { spec.begins_character text.now ≡ true }
    ensures value { IfOk result (λ front. front ≡ spec.character_front text.now) }
    ensures within { IfOk result (λ front. TakesWithin front (length text.now)) }
{
    if let Some((bytes, len)) = quoted(alloc, &text[1..])? {
        if let Some(byte) = one_byte(bytes.as_bytes()) {
            return Ok(Front::Lexeme(LexemeKind::Char(byte), len + 1));
        }
    }
    word(alloc, text)
}
