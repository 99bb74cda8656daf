//! Which bytes stand where.

ghost use Rattle.std.specs.Prelude.{◌≡◌, ◌≤◌, ◌==◌, length};
ghost use Rattle.std.specs.List.{prefix_len, list_any};
ghost use Rattle.cm_lexer.specs.Bytes.{is_blank, is_word_byte, is_quotable, is_in_line};

/// Whether a byte separates tokens: a space, a tab or a line feed.
pub fn is_blank(byte: u8) -> bool
    ensures { result ≡ is_blank byte }
{
    byte == b' ' || byte == b'\t' || byte == b'\n'
}

/// Whether a byte may stand in a word: a letter, a digit or one of `_ . - / $ ' + ~ @ %`.
pub fn is_word_byte(byte: u8) -> bool
    ensures { result ≡ is_word_byte byte }
{
    match byte {
        b'A'..=b'Z' | b'a'..=b'z' | b'0'..=b'9' => true,
        b'_' | b'.' | b'-' | b'/' | b'$' | b'\'' | b'+' | b'~' | b'@' | b'%' => true,
        _ => false,
    }
}

/// Whether a byte may stand between quotes: no quote, no backslash and no control byte.
fn is_quotable(byte: u8) -> bool
    ensures { result ≡ is_quotable byte }
{
    byte >= 32 && byte != 127 && byte != b'"' && byte != b'\\'
}

/// The number of bytes at the front that may stand in a word.
pub(crate) fn word_len(bytes: &[u8]) -> usize
    ensures len { result ≡ prefix_len is_word_byte bytes.now }
    ensures within { result ≤ length bytes.now }
{
    bytes.iter().take_while(|byte| is_word_byte(**byte)).count()
}

/// The number of bytes at the front that may stand between quotes.
pub(crate) fn quoted_len(bytes: &[u8]) -> usize
    ensures len { result ≡ prefix_len is_quotable bytes.now }
    ensures within { result ≤ length bytes.now }
{
    bytes.iter().take_while(|byte| is_quotable(**byte)).count()
}

/// The number of bytes at the front up to a line feed.
pub(crate) fn line_len(bytes: &[u8]) -> usize
    ensures len { result ≡ prefix_len is_in_line bytes.now }
    ensures within { result ≤ length bytes.now }
{
    bytes.iter().take_while(|byte| **byte != b'\n').count()
}

/// Whether a line ends in these bytes.
pub(crate) fn has_line_feed(bytes: &[u8]) -> bool
    ensures { result ≡ list_any (λ byte. byte == 10) bytes.now }
{
    bytes.contains(&b'\n')
}
