//! Points of a text.

ghost use Rattle.std.specs.Prelude.{◌≡◌, IfOk};
ghost use Rattle.cm_lexer.specs.Points.{start, after_byte, after};

use cm_base::NoMemory;

/// A point of a text: the number of bytes before it, and its line and column, which count from 1.
#[derive(Clone, Copy, Debug, PartialEq, Eq)]
pub struct Point {
    pub at: u32,
    pub line: u32,
    pub col: u32,
}

impl Point {
    /// The point before a text.
    pub(crate) fn start() -> Point
        ensures { result ≡ start }
    {
        Point {
            at: 0,
            line: 1,
            col: 1,
        }
    }

    /// The point behind a byte. Want of memory is the answer only where a number of the point passes four bytes.
    fn after_byte(self, byte: u8) -> Result<Point, NoMemory>
        ensures { IfOk result (λ point. point ≡ after_byte self byte) }
    {
        let at = self.at.checked_add(1).ok_or(NoMemory)?;
        if byte == b'\n' {
            let line = self.line.checked_add(1).ok_or(NoMemory)?;
            return Ok(Point { at, line, col: 1 });
        }
        let col = self.col.checked_add(1).ok_or(NoMemory)?;
        Ok(Point {
            at,
            line: self.line,
            col,
        })
    }

    /// The point behind these bytes.
    pub(crate) fn after(self, bytes: &[u8]) -> Result<Point, NoMemory>
        ensures { IfOk result (λ point. point ≡ after self bytes.now) }
    {
        let mut point = self;
        for byte in bytes {
            point = point.after_byte(*byte)?;
        }
        Ok(point)
    }
}
