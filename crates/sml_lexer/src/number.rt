//! Numbers: integer constants with their values. Word and real constants are refused.

ghost use Rattle.std.specs.Prelude.{◌≡◌, ◌≤◌, ◌^◌, ◌+◌, ◌<◌, Some, None, if◌then◌else◌, length, nat_le, true};
ghost use Rattle.std.specs.List.{list_all};
ghost use Rattle.std.specs.Char.{is_ascii_digit, is_digit};
ghost use Rattle.std.specs.Str.Parse.{digits_value};
ghost use Rattle.sml_lexer.specs.Numbers as spec;
ghost use Rattle.sml_lexer.specs.Fronts.{Takes, TakesWithin};
ghost use Rattle.sml_lexer.specs.Classes.{first};

use crate::bytes::{byte_at, digit_run, hex_run};
use crate::front::Front;
use crate::lexeme::LexemeKind;

/// The length of the sign at the front of a number.
fn sign_len(text: &[u8]) -> usize
    ensures { result ≡ spec.sign_len text.now }
{
    if byte_at(text, 0) == b'~' { 1 } else { 0 }
}

/// Whether a number begins at the front of a text.
pub(crate) fn begins_number(text: &[u8]) -> bool
    ensures { result ≡ spec.begins_number text.now }
{
    byte_at(text, sign_len(text)).is_ascii_digit()
}

/// Whether a text begins with `0x` and a hexadecimal digit.
#[tactic(auto, unfolding(crate::specs::Numbers::begins_hex))]
fn begins_hex(text: &[u8]) -> bool
    ensures { result ≡ spec.begins_hex text.now }
{
    byte_at(text, 0) == b'0' && byte_at(text, 1) == b'x' && byte_at(text, 2).is_ascii_hexdigit()
}

/// Whether a word constant begins at the front of a text.
#[tactic(auto, unfolding(crate::specs::Numbers::begins_word))]
fn begins_word(text: &[u8]) -> bool
    ensures { result ≡ spec.begins_word text.now }
{
    byte_at(text, 0) == b'0'
        && byte_at(text, 1) == b'w'
        && (byte_at(text, 2).is_ascii_digit()
            || byte_at(text, 2) == b'x' && byte_at(text, 3).is_ascii_hexdigit())
}

/// Whether a point and a digit stand at a place.
fn has_fraction(text: &[u8], at: usize) -> bool
    requires { at ≤ length text.now }
    ensures { result ≡ spec.has_fraction text.now at }
{
    byte_at(text, at) == b'.' && byte_at(text, at + 1).is_ascii_digit()
}

/// Whether an exponent stands at a place.
fn has_exponent(text: &[u8], at: usize) -> bool
    requires { at ≤ length text.now }
    ensures { result ≡ spec.has_exponent text.now at }
{
    let first = byte_at(text, at);
    let second = byte_at(text, at + 1);
    (first == b'e' || first == b'E')
        && (second.is_ascii_digit() || second == b'~' && byte_at(text, at + 2).is_ascii_digit())
}

/// Whether a real constant begins at the front of a text.
#[tactic(auto, unfolding(crate::specs::Numbers::begins_real))]
fn begins_real(text: &[u8]) -> bool
    ensures { result ≡ spec.begins_real text.now }
{
    let len = digit_run(text);
    has_fraction(text, len) || has_exponent(text, len)
}

/// The number that the digits write, where it is at most 2^63.
fn magnitude(digits: &[u8], radix: u32) -> Option<u64>
    requires low { 2 ≤ radix }
    requires high { radix ≤ 16 }
    requires digits { list_all (λ c. is_digit c radix) digits.now ≡ true }
    ensures { result ≡ (if nat_le (digits_value radix digits.now) (2 ^ 63) then Some (digits_value radix digits.now) else None) }
{
    let mut value = 0u64;
    for byte in digits {
        let digit = char::from(*byte).to_digit(radix)?;
        let next = u128::from(value) * u128::from(radix) + u128::from(digit);
        if next > 1 << 63 {
            return None;
        }
        value = next as u64;
    }
    Some(value)
}

/// A number with its sign, where that lies from -2^63 to 2^63 - 1.
#[tactic(auto, unfolding(crate::specs::Numbers::in_range))]
fn with_sign(negative: bool, value: u64) -> Option<i64>
    ensures { result ≡ (if spec.in_range negative value then Some (spec.signed negative value) else None) }
{
    let value = i128::from(value);
    let signed = if negative { -value } else { value };
    i64::try_from(signed).ok()
}

/// The value of digits after a sign, where it lies from -2^63 to 2^63 - 1.
#[tactic(auto, unfolding(crate::specs::Numbers::in_range))]
fn value_of(negative: bool, digits: &[u8], radix: u32) -> Option<i64>
    requires low { 2 ≤ radix }
    requires high { radix ≤ 16 }
    requires digits { list_all (λ c. is_digit c radix) digits.now ≡ true }
    ensures { result ≡ (if spec.in_range negative (digits_value radix digits.now)
        then Some (spec.signed negative (digits_value radix digits.now)) else None) }
{
    match magnitude(digits, radix) {
        Some(value) => with_sign(negative, value),
        None => None,
    }
}

/// An integer constant of so many bytes.
#[tactic(auto, unfolding(crate::specs::Numbers::integer))]
fn integer(negative: bool, digits: &[u8], radix: u32, label: bool, len: usize) -> Front
    requires low { 2 ≤ radix }
    requires high { radix ≤ 16 }
    requires digits { list_all (λ c. is_digit c radix) digits.now ≡ true }
    ensures value { result ≡ spec.integer negative (digits_value radix digits.now) label len }
    ensures takes { Takes result len }
{
    match value_of(negative, digits, radix) {
        Some(value) => Front::Lexeme(LexemeKind::Int { value, label }, len),
        None => Front::Refused(39),
    }
}

/// The hexadecimal constant whose digits are at the front of a text, after a sign of so many bytes and `0x`.
#[tactic(auto, unfolding(crate::specs::Numbers::hex_front), using(crate::proofs::NumbersLemmas::within))]
fn hex(sign: usize, digits: &[u8]) -> Front
    requires { sign ≤ 1 }
    ensures value { result ≡ spec.hex_front sign digits.now }
    ensures within { TakesWithin result (sign + 2 + length digits.now) }
{
    let len = hex_run(digits);
    integer(sign == 1, &digits[..len], 16, false, sign + 2 + len)
}

/// The decimal constant at the front of a text, after a sign of so many bytes.
#[tactic(auto, unfolding(crate::specs::Numbers::decimal_front), using(crate::proofs::NumbersLemmas::within))]
fn decimal(sign: usize, text: &[u8]) -> Front
    requires sign { sign ≤ 1 }
    requires digit { is_ascii_digit (first text.now) ≡ true }
    ensures value { result ≡ spec.decimal_front sign text.now }
    ensures within { TakesWithin result (sign + length text.now) }
{
    let len = digit_run(text);
    let label = sign == 0 && byte_at(text, 0) != b'0';
    integer(sign == 1, &text[..len], 10, label, sign + len)
}

/// Whether a real constant, or a word constant, which has no sign, begins at the front of a text.
#[tactic(auto, unfolding(crate::specs::Numbers::is_left_out))]
fn is_left_out(sign: usize, digits: &[u8]) -> bool
    ensures { result ≡ spec.is_left_out sign digits.now }
{
    sign == 0 && begins_word(digits) || begins_real(digits)
}

/// The number at the front of a text, after a sign of so many bytes.
#[tactic(auto, unfolding(crate::specs::Numbers::unsigned_front), using(crate::proofs::NumbersLemmas::hex_has_prefix))]
fn unsigned(sign: usize, digits: &[u8]) -> Front
    requires sign { sign ≤ 1 }
    requires digit { is_ascii_digit (first digits.now) ≡ true }
    ensures value { result ≡ spec.unsigned_front sign digits.now }
    ensures within { TakesWithin result (sign + length digits.now) }
{
    if begins_hex(digits) {
        hex(sign, &digits[2..])
    } else if is_left_out(sign, digits) {
        Front::Refused(20)
    } else {
        decimal(sign, digits)
    }
}

/// The number at the front of a text.
#[tactic(auto, unfolding(crate::specs::Numbers::number_front), using(crate::proofs::BytesLemmas::within_class))]
pub(crate) fn number(text: &[u8]) -> Front
    requires { spec.begins_number text.now ≡ true }
    ensures value { result ≡ spec.number_front text.now }
    ensures within { TakesWithin result (length text.now) }
{
    let sign = sign_len(text);
    unsigned(sign, &text[sign..])
}
