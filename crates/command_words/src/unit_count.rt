//! The number of units of a generated project.

ghost use Rattle.std.specs.Prelude.{◌≡◌};
ghost use Rattle.command_words.specs.Words.{is_unit_count, unit_count};

use crate::definitions::{are_digits, number_of};

/// Whether a project may have so many units.
fn is_unit_count(n: u64) -> bool
    ensures { result ≡ is_unit_count n }
{
    0 < n && n < 2001
}

/// The number of units that a word is: digits with a value from 1 to 2,000.
pub fn unit_count(word: &[u8]) -> Option<u32>
    ensures { result ≡ unit_count word.now }
{
    if !are_digits(word) {
        return None;
    }
    let number = number_of(word)?;
    if is_unit_count(number) {
        Some(number as u32)
    } else {
        None
    }
}
