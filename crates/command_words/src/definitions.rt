//! Definitions: NAME=INT.

ghost use Rattle.std.specs.Prelude.{◌≡◌, ◌≤◌, ◌^◌, IfOk, MatchOption, length};
ghost use Rattle.std.specs.List.{list_all};
ghost use Rattle.cm_base.specs.ByteClasses.{is_digit, is_identifier_byte};
ghost use Rattle.cm_conditions.specs.Grammar.{is_name};
ghost use Rattle.cm_conditions.specs.Lexemes.{number_from};
ghost use Rattle.command_words.specs.Words.{begins_with_letter, is_defined_name, signed, are_digits, digits_value, is_sign, int_value, name_len, definition_at, definition_of, defined_once};

use cm_base::{Def, List, NoMemory, Text, is_digit, is_identifier_byte, is_letter};
use cm_conditions::is_name;
use indexmap::IndexSet;
use std::alloc::Global;

/// Whether the first byte is a letter.
fn begins_with_letter(word: &[u8]) -> bool
    ensures { result ≡ begins_with_letter word.now }
{
    match word.first() {
        Some(byte) => is_letter(*byte),
        None => false,
    }
}

/// Whether each byte may stand in an identifier.
fn are_identifier_bytes(word: &[u8]) -> bool
    ensures { result ≡ list_all is_identifier_byte word.now }
{
    word.iter().all(|byte| is_identifier_byte(*byte))
}

/// Whether a definition may have this name.
fn is_defined_name(name: &[u8]) -> bool
    ensures { result ≡ is_defined_name name.now }
{
    begins_with_letter(name) && are_identifier_bytes(name) && is_name(name)
}

/// The number that digits are, where it has 64 bits without a sign.
#[tactic(auto, using(cm_conditions::proofs::LexingSteps::numbers))]
pub fn number_of(digits: &[u8]) -> Option<u64>
    ensures { MatchOption result (2 ^ 64 ≤ number_from 0 digits.now) (λ n. n ≡ number_from 0 digits.now) }
{
    let mut number = 0u64;
    for digit in digits {
        let Some(tens) = number.checked_mul(10) else {
            return None;
        };
        let Some(next) = tens.checked_add(u64::from(digit.saturating_sub(b'0'))) else {
            return None;
        };
        number = next;
    }
    Some(number)
}

/// A number behind its sign, within 64 bits.
fn signed(negative: bool, number: u64) -> Option<i64>
    ensures { result ≡ signed negative number }
{
    if number < 9_223_372_036_854_775_808 {
        let value = number as i64;
        Some(if negative { -value } else { value })
    } else if negative && number == 9_223_372_036_854_775_808 {
        Some(i64::MIN)
    } else {
        None
    }
}

/// Whether each byte is a digit.
fn all_digits(bytes: &[u8]) -> bool
    ensures { result ≡ list_all is_digit bytes.now }
{
    bytes.iter().all(|byte| is_digit(*byte))
}

/// Whether bytes are digits, of which there is one at least.
#[tactic(auto, unfolding(crate::specs::Words::are_digits))]
pub fn are_digits(bytes: &[u8]) -> bool
    ensures { result ≡ are_digits bytes.now }
{
    0 < bytes.len() && all_digits(bytes)
}

/// The number that digits are, behind a sign or without one.
fn digits_value(negative: bool, digits: &[u8]) -> Option<i64>
    ensures { result ≡ digits_value negative digits.now }
{
    if !are_digits(digits) {
        return None;
    }
    match number_of(digits) {
        Some(number) => signed(negative, number),
        None => None,
    }
}

/// Whether a byte begins a negative number.
fn is_sign(byte: u8) -> bool
    ensures { result ≡ is_sign byte }
{
    byte == b'-' || byte == b'~'
}

/// The number that INT is.
fn int_value(word: &[u8]) -> Option<i64>
    ensures { result ≡ int_value word.now }
{
    match word.split_first() {
        Some((byte, digits)) => {
            if is_sign(*byte) {
                digits_value(true, digits)
            } else {
                digits_value(false, word)
            }
        }
        None => None,
    }
}

/// The number of bytes before the first `=`.
fn name_len(word: &[u8]) -> usize
    ensures len { result ≡ name_len word.now }
    ensures within { result ≤ length word.now }
{
    word.iter().take_while(|byte| **byte != b'=').count()
}

/// The definition of a name and of what stands behind it, from the `=` on.
fn definition_at(alloc: Global, name: &[u8], rest: &[u8]) -> Result<Option<Def>, NoMemory>
    ensures { IfOk result (λ def. def ≡ definition_at name.now rest.now) }
{
    let Some((_equals, int)) = rest.split_first() else {
        return Ok(None);
    };
    if !is_defined_name(name) {
        return Ok(None);
    }
    let Some(value) = int_value(int) else {
        return Ok(None);
    };
    let name = Text::from_bytes(alloc, name)?;
    Ok(Some(Def { name, value }))
}

/// The definition that NAME=INT is.
pub fn definition_of(alloc: Global, word: &[u8]) -> Result<Option<Def>, NoMemory>
    ensures { IfOk result (λ def. def ≡ definition_of word.now) }
{
    let (name, rest) = word.split_at(name_len(word));
    definition_at(alloc, name, rest)
}

/// Whether no name is defined twice.
pub fn are_defined_once(alloc: Global, defs: &[Def]) -> Result<bool, NoMemory>
    ensures { IfOk result (λ once. once ≡ defined_once defs.now) }
{
    let mut behind = IndexSet::new(alloc);
    let mut rest = defs;
    while let Some((def, before)) = rest.split_last() {
        if behind.contains(&def.name) {
            return Ok(false);
        }
        behind.insert(def.name.copy()?)?;
        rest = before;
    }
    Ok(true)
}
