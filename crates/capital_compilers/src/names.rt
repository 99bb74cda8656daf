//! The names of a source: each capital letter with the digits behind it.

ghost use Rattle.std.specs.Prelude.{◌≡◌, ◌≤◌, ◌∷◌, IfOk, length};
ghost use Rattle.std.specs.List.{prefix_len};
ghost use Rattle.cm_base.specs.ByteClasses.{is_digit};
ghost use Rattle.capital_compilers.specs.CapitalSources.{is_capital, name_of, names_of};

use cm_base::{List, NoMemory, Text, is_digit};
use std::alloc::Global;

/// Whether a byte is a capital letter.
fn is_capital(byte: u8) -> bool
    ensures { result ≡ is_capital byte }
{
    matches!(byte, b'A'..=b'Z')
}

/// The number of digits at the front of a text.
fn digit_count(text: &[u8]) -> usize
    ensures len { result ≡ prefix_len is_digit text.now }
    ensures within { result ≤ length text.now }
{
    text.iter().take_while(|byte| is_digit(**byte)).count()
}

/// The name of a letter and the text behind it.
fn name_of(alloc: Global, letter: u8, behind: &[u8]) -> Result<Text, NoMemory>
    ensures { IfOk result (λ name. name ≡ name_of letter behind.now) }
{
    let mut name = Vec::from_slice(alloc, &[letter])?;
    name.extend_from_slice(&behind[..digit_count(behind)])?;
    Ok(Text::from_vec(name))
}

/// The names of a source.
pub(crate) fn names_of(alloc: Global, source: &[u8]) -> Result<List<Text>, NoMemory>
    ensures { IfOk result (λ names. names ≡ names_of source.now) }
{
    let mut names = List::new(alloc);
    let mut rest = source;
    while let Some((byte, behind)) = rest.split_first() {
        if is_capital(*byte) {
            names.add(name_of(alloc, *byte, behind)?)?;
        }
        rest = behind;
    }
    Ok(names)
}
