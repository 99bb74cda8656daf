//! Places in a text: lines, and bytes in a line.

ghost use Rattle.std.specs.Prelude.{◌≡◌, ◌≤◌, ◌<◌, ◌+◌, ◌^◌, ◌-◌, length};
ghost use Rattle.std.specs.List.{fold};
ghost use Rattle.sml_lexer.specs.Lexing.{after_byte};

/// A line and a column, each counted from 1.
#[derive(Clone, Copy, Debug)]
pub(crate) struct Point {
    pub(crate) line: u32,
    pub(crate) col: u32,
}

/// The place after a byte.
pub(crate) fn after_byte(at: Point, byte: u8) -> Point
    requires line { at.line < 2 ^ 32 - 1 }
    requires col { at.col < 2 ^ 32 - 1 }
    ensures { result ≡ after_byte at byte }
{
    if byte == b'\n' {
        Point {
            line: at.line + 1,
            col: 1,
        }
    } else {
        Point {
            line: at.line,
            col: at.col + 1,
        }
    }
}

/// The place after bytes.
pub(crate) fn after_bytes(at: Point, bytes: &[u8]) -> Point
    requires line { at.line + length bytes.now < 2 ^ 32 }
    requires col { at.col + length bytes.now < 2 ^ 32 }
    ensures value { result ≡ fold after_byte at bytes.now }
    ensures line { result.line ≤ at.line + length bytes.now }
    ensures col { result.col ≤ at.col + length bytes.now }
{
    let mut now = at;
    for byte in bytes {
        now = after_byte(now, *byte);
    }
    now
}
