//! The bytes for which a line with a margin stands.

ghost use Rattle.std.specs.Prelude.{◌≡◌, ◌<◌, ◌++◌, ◌∷◌, [], length, IfOk, IfSome, OnOk};

use crate::fault::{CaseFault, Wrong};
use cm_base::NoMemory;
use std::alloc::Global;

/// Adds bytes at the end.
pub fn push_all(all: &mut Vec<u8>, bytes: &[u8]) -> Result<(), NoMemory>
    ensures { OnOk result (all.new.items ≡ all.old.items ++ bytes.now) }
{
    all.extend_from_slice(bytes)?;
    Ok(())
}

/// The value of a hex digit in lower case.
fn hex_value(digit: u8) -> Option<u8> {
    match digit {
        b'0'..=b'9' => Some(digit - b'0'),
        b'a'..=b'f' => Some(digit - b'a' + 10),
        _ => None,
    }
}

/// The byte that two hex digits write.
fn byte_of(high: u8, low: u8) -> Option<u8> {
    let (high, low) = (hex_value(high)?, hex_value(low)?);
    Some((high << 4) | low)
}

/// The byte of an escape, and the rest of the line. The stroke is already taken.
fn escape(line: &[u8]) -> Option<(u8, &[u8])>
    ensures { IfSome result (λ pair. length pair.1.now < length line.now) }
{
    match line {
        [b'\\', rest @ ..] => Some((b'\\', rest)),
        [b'n', rest @ ..] => Some((b'\n', rest)),
        [b'r', rest @ ..] => Some((b'\r', rest)),
        [b't', rest @ ..] => Some((b'\t', rest)),
        [b'0', rest @ ..] => Some((b'\0', rest)),
        [b'x', high, low, rest @ ..] => Some((byte_of(*high, *low)?, rest)),
        _ => None,
    }
}

/// The next byte of a line with escapes, and the rest of the line.
fn next_byte(line: &[u8]) -> Option<(u8, &[u8])>
    ensures { IfSome result (λ pair. length pair.1.now < length line.now) }
{
    match line {
        [b'\\', rest @ ..] => escape(rest),
        [byte, rest @ ..] => Some((*byte, rest)),
        [] => None,
    }
}

/// The bytes of a line with escapes. A stroke before anything else is refused.
pub(crate) fn unescaped(alloc: Global, at: u32, text: &[u8]) -> Result<Vec<u8>, CaseFault> {
    let mut all = Vec::new(alloc);
    let mut rest = text;
    while !rest.is_empty() {
        let Some((byte, after)) = next_byte(rest) else {
            return Err(CaseFault::Wrong(at, Wrong::Escape));
        };
        all.push(byte)?;
        rest = after;
    }
    Ok(all)
}

/// The bytes of a line of hex bytes between blanks.
pub(crate) fn unhexed(alloc: Global, at: u32, text: &[u8]) -> Result<Vec<u8>, CaseFault> {
    let mut all = Vec::new(alloc);
    for word in text.split(|byte| *byte == b' ') {
        let byte = match word {
            [] => continue,
            [high, low] => byte_of(*high, *low),
            _ => None,
        };
        match byte {
            Some(byte) => all.push(byte)?,
            None => return Err(CaseFault::Wrong(at, Wrong::Hex)),
        }
    }
    Ok(all)
}

/// The bytes of a line, and the line feed behind it.
pub(crate) fn with_feed(alloc: Global, text: &[u8]) -> Result<Vec<u8>, CaseFault>
    ensures { IfOk result (λ all. all.items ≡ text.now ++ 10 ∷ []) }
{
    let mut all = Vec::from_slice(alloc, text)?;
    all.push(b'\n')?;
    Ok(all)
}
