//! Cuts the text of a condition into lexemes.

ghost use Rattle.std.specs.Prelude.{◌≡◌, ◌+◌, ◌≤◌, ◌^◌, ◌∷◌, IfOk, MatchOption, length};
ghost use Rattle.std.specs.List.{prefix_len};
ghost use Rattle.cm_base.specs.ByteClasses.{is_digit, is_identifier_byte};
ghost use Rattle.cm_conditions.specs.Lexemes.{is_space, number_from, number_lexeme, next_of, two_bytes, one_byte, mark_lexeme, more_of, lexeme_at, lexemes_of};

use crate::lexeme::{Lexeme, Mark};
use cm_base::{List, NoMemory, Text, is_digit, is_identifier_byte, is_letter};
use std::alloc::Global;

/// Whether a byte separates lexemes: a space or a tab.
fn is_space(byte: u8) -> bool
    ensures { result ≡ is_space byte }
{
    byte == b' ' || byte == b'\t'
}

/// The number of digits at the front.
fn digits_len(bytes: &[u8]) -> usize
    ensures len { result ≡ prefix_len is_digit bytes.now }
    ensures within { result ≤ length bytes.now }
{
    bytes.iter().take_while(|byte| is_digit(**byte)).count()
}

/// The number of bytes at the front that may stand in a word.
fn word_len(bytes: &[u8]) -> usize
    ensures len { result ≡ prefix_len is_identifier_byte bytes.now }
    ensures within { result ≤ length bytes.now }
{
    bytes
        .iter()
        .take_while(|byte| is_identifier_byte(**byte))
        .count()
}

/// The number that digits are, where it has 64 bits without a sign.
#[tactic(auto, using(crate::proofs::LexingSteps::numbers))]
fn number_of(digits: &[u8]) -> Option<u64>
    ensures { MatchOption result (2 ^ 64 ≤ number_from 0 digits.now) (λ n. n ≡ number_from 0 digits.now) }
{
    let mut number = 0u64;
    for digit in digits {
        let Some(tens) = number.checked_mul(10) else {
            return None;
        };
        let Some(next) = tens.checked_add(u64::from(digit.saturating_sub(b'0'))) else {
            return None;
        };
        number = next;
    }
    Some(number)
}

/// The lexeme of a number.
fn number_or_wrong(number: u64) -> Lexeme
    ensures { result ≡ number_lexeme number }
{
    if number < 9_223_372_036_854_775_808 {
        Lexeme::Number(number as i64)
    } else {
        Lexeme::Wrong
    }
}

/// The lexeme that digits are.
fn number_lexeme(digits: &[u8]) -> Lexeme
    ensures { result ≡ number_lexeme (number_from 0 digits.now) }
{
    match number_of(digits) {
        Some(number) => number_or_wrong(number),
        None => Lexeme::Wrong,
    }
}

/// The first of these bytes, or 0.
fn next_of(bytes: &[u8]) -> u8
    ensures { result ≡ next_of bytes.now }
{
    match bytes.first() {
        Some(byte) => *byte,
        None => 0,
    }
}

/// The mark of two bytes that these are.
fn two_bytes(a: u8, b: u8) -> Option<Mark>
    ensures { result ≡ two_bytes a b }
{
    match (a, b) {
        (b'<', b'>') => Some(Mark::Unequal),
        (b'<', b'=') => Some(Mark::LessEqual),
        (b'>', b'=') => Some(Mark::GreaterEqual),
        _ => None,
    }
}

/// The mark that a byte is.
fn one_byte(a: u8) -> Option<Mark>
    ensures { result ≡ one_byte a }
{
    match a {
        b'(' => Some(Mark::Open),
        b')' => Some(Mark::Close),
        b'*' => Some(Mark::Times),
        b'+' => Some(Mark::Plus),
        b'-' => Some(Mark::Minus),
        b'<' => Some(Mark::Less),
        b'=' => Some(Mark::Equal),
        b'>' => Some(Mark::Greater),
        _ => None,
    }
}

/// The number of bytes that belong to a lexeme behind its first.
#[tactic(auto, using(crate::proofs::LexingSteps::some_next))]
fn more_of(byte: u8, bytes: &[u8]) -> usize
    ensures more { result ≡ more_of byte bytes.now }
    ensures within { result ≤ length bytes.now }
{
    if is_digit(byte) {
        return digits_len(bytes);
    }
    if is_letter(byte) {
        return word_len(bytes);
    }
    match two_bytes(byte, next_of(bytes)) {
        Some(_) => 1,
        None => 0,
    }
}

/// The lexeme at the front of a text.
fn lexeme_at(alloc: Global, byte: u8, bytes: &[u8], text: &[u8]) -> Result<Lexeme, NoMemory>
    requires { text.now ≡ byte ∷ bytes.now }
    ensures { IfOk result (λ lexeme. lexeme ≡ lexeme_at byte bytes.now) }
{
    let (taken, _rest) = text.split_at(more_of(byte, bytes) + 1);
    if is_digit(byte) {
        return Ok(number_lexeme(taken));
    }
    if is_letter(byte) {
        return Ok(Lexeme::Word(Text::from_bytes(alloc, taken)?));
    }
    match two_bytes(byte, next_of(bytes)) {
        Some(mark) => Ok(Lexeme::Mark(mark)),
        None => match one_byte(byte) {
            Some(mark) => Ok(Lexeme::Mark(mark)),
            None => Ok(Lexeme::Wrong),
        },
    }
}

/// The lexemes of a condition's text.
#[tactic(auto, using(crate::proofs::LexingSteps::lexeme_steps))]
pub(crate) fn lexemes(alloc: Global, text: &[u8]) -> Result<List<Lexeme>, NoMemory>
    ensures { IfOk result (λ found. found ≡ lexemes_of text.now) }
{
    let mut found = List::new(alloc);
    let mut rest = text;
    while let Some((byte, bytes)) = rest.split_first() {
        if is_space(*byte) {
            rest = bytes;
        } else {
            found.add(lexeme_at(alloc, *byte, bytes, rest)?)?;
            let (_passed, after) = bytes.split_at(more_of(*byte, bytes));
            rest = after;
        }
    }
    Ok(found)
}
