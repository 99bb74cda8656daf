//! Bytes as hex digits.

use cm_base::{NoMemory, Text};
use std::alloc::Global;

/// The value of a hex digit in lower case.
fn value_of(digit: u8) -> Option<u8> {
    match digit {
        b'0'..=b'9' => Some(digit - b'0'),
        b'a'..=b'f' => Some(digit - b'a' + 10),
        _ => None,
    }
}

/// The byte that two hex digits write.
fn byte_of(high: u8, low: u8) -> Option<u8> {
    let (high, low) = (value_of(high)?, value_of(low)?);
    Some((high << 4) | low)
}

/// The bytes that hex digits write.
pub fn bytes_of(alloc: Global, digits: &[u8]) -> Result<Option<Text>, NoMemory> {
    let mut bytes = Vec::new(alloc);
    let mut rest = digits;
    while let [high, low, more @ ..] = rest {
        let Some(byte) = byte_of(*high, *low) else {
            return Ok(None);
        };
        bytes.push(byte)?;
        rest = more;
    }
    Ok(if rest.is_empty() {
        Some(Text::from_vec(bytes))
    } else {
        None
    })
}

/// The digits.
const DIGITS: [u8; 16] = *b"0123456789abcdef";

/// Bytes as hex digits, and a line feed behind them.
pub fn digits_line(alloc: Global, bytes: &[u8]) -> Result<Vec<u8>, NoMemory> {
    let mut digits = Vec::new(alloc);
    for byte in bytes {
        digits.push(DIGITS[(*byte >> 4) as usize])?;
        digits.push(DIGITS[(*byte & 15) as usize])?;
    }
    digits.push(b'\n')?;
    Ok(digits)
}
