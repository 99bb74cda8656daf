//! The classes of bytes that lexemes are made of, and the longest run of a class at the front of a text.

ghost use Rattle.std.specs.Prelude.{◌≡◌, ◌≤◌, length, slice_index};
ghost use Rattle.std.specs.List.{prefix_len};
ghost use Rattle.sml_lexer.specs.Classes as spec;

/// The byte at a place, or 0 past the end; no lexeme begins with 0.
pub(crate) fn byte_at(text: &[u8], at: usize) -> u8
    ensures { result ≡ slice_index text.now at }
{
    text.get(at).copied().unwrap_or(0)
}

/// Whether a byte may stand in an alphanumeric identifier: a letter, a digit, `_` or `'`.
fn is_name_byte(byte: u8) -> bool
    ensures { result ≡ spec.is_name_byte byte }
{
    byte.is_ascii_alphanumeric() || byte == b'_' || byte == b'\''
}

/// Whether a byte is one of those that symbolic identifiers are made of.
fn is_symbol_byte(byte: u8) -> bool
    ensures { result ≡ spec.is_symbol_byte byte }
{
    match byte {
        b'!'
        | b'%'
        | b'&'
        | b'$'
        | b'#'
        | b'+'
        | b'-'
        | b'/'
        | b':'
        | b'<'
        | b'='
        | b'>'
        | b'?'
        | b'@'
        | b'\\'
        | b'~'
        | b'`'
        | b'^'
        | b'|'
        | b'*' => true,
        _ => false,
    }
}

/// Whether a byte separates: a space, tab, line feed, form feed or carriage return.
pub(crate) fn is_blank(byte: u8) -> bool
    ensures { result ≡ spec.is_blank byte }
{
    byte == b' ' || byte == b'\t' || byte == b'\n' || byte == 12 || byte == b'\r'
}

/// The length of the run of identifier bytes at the front.
pub(crate) fn name_run(text: &[u8]) -> usize
    ensures run { result ≡ prefix_len spec.is_name_byte text.now }
    ensures within { result ≤ length text.now }
{
    text.iter().take_while(|byte| is_name_byte(**byte)).count()
}

/// The length of the run of symbols at the front.
pub(crate) fn symbol_run(text: &[u8]) -> usize
    ensures run { result ≡ prefix_len spec.is_symbol_byte text.now }
    ensures within { result ≤ length text.now }
{
    text.iter()
        .take_while(|byte| is_symbol_byte(**byte))
        .count()
}

/// The length of the run of separators at the front.
pub(crate) fn blank_run(text: &[u8]) -> usize
    ensures run { result ≡ prefix_len spec.is_blank text.now }
    ensures within { result ≤ length text.now }
{
    text.iter().take_while(|byte| is_blank(**byte)).count()
}

/// The length of the run of decimal digits at the front.
pub(crate) fn digit_run(text: &[u8]) -> usize
    ensures run { result ≡ prefix_len spec.is_digit text.now }
    ensures within { result ≤ length text.now }
{
    text.iter().take_while(|byte| byte.is_ascii_digit()).count()
}

/// The length of the run of hexadecimal digits at the front.
pub(crate) fn hex_run(text: &[u8]) -> usize
    ensures run { result ≡ prefix_len spec.is_hex_digit text.now }
    ensures within { result ≤ length text.now }
{
    text.iter()
        .take_while(|byte| byte.is_ascii_hexdigit())
        .count()
}
