//! Where the lines of trees go.

use case_files::{Part, push_all, push_parts};
use cm_base::{List, NoMemory, Text};
use sml_trees::{At, LongName, Name};
use std::alloc::Global;

/// A line that grows, with or without the places of what it shows: `@` with the line and the column. Once memory was
/// wanting it grows no more, and there is no line: so printing a tree needs no exit at each of its parts.
#[derive(Drop)]
pub struct Printer {
    alloc: Global,
    out: Vec<u8>,
    has_places: bool,
    is_failed: bool,
}

impl Printer {
    /// An empty line.
    pub fn new(alloc: Global, has_places: bool) -> Printer {
        Printer {
            alloc,
            out: Vec::new(alloc),
            has_places,
            is_failed: false,
        }
    }

    /// The bytes of the line.
    pub fn bytes(&self) -> Result<&[u8], NoMemory> {
        if self.is_failed {
            return Err(NoMemory);
        }
        Ok(self.out.as_slice())
    }

    /// Ends the line, since memory was wanting for what it was to show.
    pub fn fail(&mut self) {
        self.is_failed = true;
    }

    /// Adds bytes.
    pub fn put(&mut self, bytes: &[u8]) {
        if !self.is_failed && push_all(&mut self.out, bytes).is_err() {
            self.is_failed = true;
        }
    }

    /// Adds parts.
    pub fn parts(&mut self, parts: &[Part<'_>]) {
        if !self.is_failed && push_parts(self.alloc, &mut self.out, parts).is_err() {
            self.is_failed = true;
        }
    }

    /// Adds an integer, with `~` before one that is negative.
    pub fn int(&mut self, value: i64) {
        let sign: &[u8] = if value < 0 { b"~" } else { b"" };
        self.parts(&[Part::Text(sign), Part::Number(value.unsigned_abs())])
    }

    /// Adds a place.
    pub fn at(&mut self, at: At) {
        if self.has_places {
            self.parts(&[
                Part::Text(b"@"),
                Part::Number(u64::from(at.line)),
                Part::Text(b":"),
                Part::Number(u64::from(at.col)),
            ]);
        }
    }

    /// Adds the first word of a phrase, and where the phrase begins.
    pub fn begin(&mut self, word: &[u8], at: At) {
        self.put(word);
        self.at(at)
    }

    /// Adds what opens a phrase before its first part, and where the phrase begins with a space behind it.
    pub fn open(&mut self, mark: &[u8], at: At) {
        self.begin(mark, at);
        self.put(if self.has_places { b" " } else { b"" })
    }

    /// Adds the place of a part that begins with nothing of its own, behind a space.
    pub fn part_at(&mut self, at: At) {
        if self.has_places {
            self.begin(b" ", at);
        }
    }

    /// Adds a name.
    pub fn name(&mut self, name: &Name) {
        self.begin(name.text.as_bytes(), place_of(name))
    }

    /// Adds a name behind a mark.
    pub fn marked(&mut self, mark: &[u8], name: &Name) {
        self.put(mark);
        self.name(name)
    }

    /// Adds names, each behind a space.
    pub fn names(&mut self, names: &List<Name>) {
        for name in names.as_slice() {
            self.marked(b" ", name);
        }
    }

    /// Adds type variables, each with a space behind it.
    pub fn tyvars(&mut self, tyvars: &List<Name>) {
        for tyvar in tyvars.as_slice() {
            self.name(tyvar);
            self.put(b" ");
        }
    }

    /// Adds texts with dots between them.
    fn dotted(&mut self, parts: &[Text]) {
        let mut dot: &[u8] = b"";
        for part in parts {
            self.parts(&[Part::Text(dot), Part::Text(part.as_bytes())]);
            dot = b".";
        }
    }

    /// Adds a long name, with dots.
    pub fn long(&mut self, name: &LongName) {
        self.dotted(name.parts.as_slice());
        self.at(place_of_long(name))
    }

    /// Adds a long name behind a mark.
    pub fn marked_long(&mut self, mark: &[u8], name: &LongName) {
        self.put(mark);
        self.long(name)
    }

    /// Adds long names, each behind a space.
    pub fn longs(&mut self, names: &List<LongName>) {
        for name in names.as_slice() {
            self.marked_long(b" ", name);
        }
    }

    /// Adds the place of a phrase that is a name alone, where it isn't the name's.
    fn other_place(&mut self, at: At, name: At) {
        if at != name {
            self.at(at);
        }
    }

    /// Adds a phrase that is a name alone.
    pub fn leaf(&mut self, name: &Name, at: At) {
        self.name(name);
        self.other_place(at, place_of(name))
    }

    /// Adds a phrase that is a long name alone.
    pub fn long_leaf(&mut self, name: &LongName, at: At) {
        self.long(name);
        self.other_place(at, place_of_long(name))
    }
}

/// Where a name stands.
fn place_of(name: &Name) -> At {
    At {
        line: name.line,
        col: name.col,
    }
}

/// Where a long name stands.
fn place_of_long(name: &LongName) -> At {
    At {
        line: name.line,
        col: name.col,
    }
}
