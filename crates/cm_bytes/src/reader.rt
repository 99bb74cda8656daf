//! Bytes that are read field by field.

ghost use Rattle.std.specs.Prelude.{◌≡◌, [], ◌↔◌, IsTrue};
ghost use Rattle.cm_bytes.specs.Fields.{byte_at, raw_at, u32_at, text_at};
ghost use Rattle.cm_bytes.specs.Reading.{Reads};

use crate::short::Short;
use std::marker::Model;

/// A place in some bytes, which contracts see as the bytes from there on. A call that finds too few stays there.
#[derive(Debug, Drop)]
pub struct Reader<'a> {
    rest: &'a [u8],
}

impl<'a> Model for Reader<'a> {
    ghost use Rattle.std.specs.Prelude.{List, ℕ};

    ghost Value = { List ℕ };

    ghost view = { λ r. r.rest.now };
}

impl<'a> Reader<'a> {
    /// At the front of the bytes.
    pub fn new(bytes: &'a [u8]) -> Reader<'a>
        ensures { result ≡ bytes.now }
    {
        Reader { rest: bytes }
    }

    /// Reads a byte.
    #[tactic(auto, unfolding(crate::specs::Fields::byte_at))]
    pub fn u8(&mut self) -> Result<u8, Short>
        ensures { Reads (λ b. b) byte_at result self.old self.new }
    {
        let [first, rest @ ..] = self.rest else {
            return Err(Short);
        };
        self.rest = rest;
        Ok(*first)
    }

    /// Reads a number.
    #[tactic(auto, unfolding(crate::specs::Fields::u32_at))]
    pub fn u32(&mut self) -> Result<u32, Short>
        ensures { Reads (λ n. n) u32_at result self.old self.new }
    {
        if self.rest.len() < 4 {
            return Err(Short);
        }
        let (front, rest) = self.rest.split_at(4);
        self.rest = rest;
        Ok(u32::from_be_bytes([front[0], front[1], front[2], front[3]]))
    }

    /// Reads a text without copying it.
    #[tactic(auto, unfolding(crate::specs::Fields::text_at))]
    pub fn slice(&mut self) -> Result<&'a [u8], Short>
        ensures { Reads (λ text. text.now) text_at result self.old self.new }
    {
        let mut after = Reader { rest: self.rest };
        let len = after.u32()?;
        let text = after.raw(len as usize)?;
        self.rest = after.rest;
        Ok(text)
    }

    /// Reads so many bytes as they are, and lends them in place.
    #[tactic(auto, unfolding(crate::specs::Fields::raw_at))]
    pub fn raw(&mut self, n: usize) -> Result<&'a [u8], Short>
        ensures { Reads (λ text. text.now) (raw_at n) result self.old self.new }
    {
        if self.rest.len() < n {
            return Err(Short);
        }
        let (front, rest) = self.rest.split_at(n);
        self.rest = rest;
        Ok(front)
    }

    /// Whether nothing is left.
    pub fn at_end(&self) -> bool
        ensures { IsTrue result ↔ (self.now ≡ []) }
    {
        self.rest.is_empty()
    }
}
