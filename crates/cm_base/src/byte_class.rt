//! Classes of bytes, as ASCII has them.

ghost use Rattle.std.specs.Prelude.{◌≡◌};
ghost use Rattle.cm_base.specs.ByteClasses.{is_letter, is_digit, is_identifier_byte};

/// Whether a byte is a letter.
pub fn is_letter(byte: u8) -> bool
    ensures { result ≡ is_letter byte }
{
    matches!(byte, b'A'..=b'Z' | b'a'..=b'z')
}

/// Whether a byte is a digit.
pub fn is_digit(byte: u8) -> bool
    ensures { result ≡ is_digit byte }
{
    matches!(byte, b'0'..=b'9')
}

/// Whether a byte may stand in an identifier: a letter, a digit, `_` or the prime.
pub fn is_identifier_byte(byte: u8) -> bool
    ensures { result ≡ is_identifier_byte byte }
{
    is_letter(byte) || is_digit(byte) || byte == b'_' || byte == b'\''
}
