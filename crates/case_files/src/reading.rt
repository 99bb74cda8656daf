//! The cases of a text, which is read line by line.

ghost use Rattle.std.specs.Prelude.{◌≡◌, ◌+◌, IfOk, OnOk, count_by, if◌then◌else◌, length, vec_len};
ghost use Rattle.case_files.specs.Titles.{begins_case, begun, titles_in};

use crate::bytes::{unescaped, unhexed, with_feed};
use crate::case::{Case, CaseFile, Piece, Section};
use crate::fault::{CaseFault, Wrong};
use cm_base::{List, NoMemory, Text};
use std::alloc::Global;
use std::collections::BTreeSet;
use std::mem;

/// The title of the case that is being read, and where it stands.
#[derive(Drop)]
struct Heading {
    line: u32,
    title: Text,
}

/// The sections that are being read. The last one takes lines with margins if it is open.
#[derive(Drop)]
struct Body {
    sections: Vec<Section>,
    open: Option<Section>,
}

/// What was read so far: whole cases, their titles, the kind of cases, the title and the sections of the case that
/// is being read, and the sections with which each case of the kind begins. Above the first title the sections are
/// those that the cases share.
#[derive(Drop)]
struct Reader {
    alloc: Global,
    cases: Vec<Case>,
    titles: BTreeSet<Text>,
    kind: Option<Text>,
    heading: Option<Heading>,
    body: Body,
    shared: Vec<Section>,
}

/// The name of a section, and the words behind it.
fn at_blank(line: &[u8]) -> (&[u8], &[u8]) {
    match line.iter().position(|byte| *byte == b' ') {
        Some(at) => (&line[..at], &line[at + 1..]),
        None => (line, b""),
    }
}

impl Body {
    /// Ends the open section.
    fn close(&mut self) -> Result<(), NoMemory> {
        if let Some(section) = self.open.take() {
            self.sections.push(section)?;
        }
        Ok(())
    }

    /// Begins a section.
    fn begin(&mut self, alloc: Global, line: u32, heading: &[u8]) -> Result<(), NoMemory> {
        self.close()?;
        let (name, words) = at_blank(heading);
        self.open = Some(Section {
            line,
            name: Text::from_bytes(alloc, name)?,
            words: Text::from_bytes(alloc, words)?,
            pieces: List::new(alloc),
        });
        Ok(())
    }

    /// Adds a line to the open section.
    fn add(&mut self, piece: Piece) -> Result<(), CaseFault> {
        let line = piece.line;
        match &mut self.open {
            Some(section) => Ok(section.pieces.add(piece)?),
            None => Err(CaseFault::Wrong(line, Wrong::NoSection)),
        }
    }

    /// Ends the open section, gives all that were read, and goes on with these.
    fn change(&mut self, sections: Vec<Section>) -> Result<Vec<Section>, NoMemory> {
        self.close()?;
        Ok(mem::replace(&mut self.sections, sections))
    }
}

/// The line of a section, which stands for these bytes.
fn piece_of(alloc: Global, line: u32, written: &[u8], bytes: Vec<u8>) -> Result<Piece, NoMemory> {
    Ok(Piece {
        line,
        written: Text::from_bytes(alloc, written)?,
        bytes: Text::from_vec(bytes),
    })
}

/// The bytes for which a line with a margin stands, and `None` for a line without.
fn margin_bytes(alloc: Global, at: u32, line: &[u8]) -> Result<Option<Vec<u8>>, CaseFault> {
    match line {
        [b'|', text @ ..] => Ok(Some(with_feed(alloc, text)?)),
        [b':', text @ ..] => Ok(Some(Vec::from_slice(alloc, text)?)),
        [b'\\', text @ ..] => Ok(Some(unescaped(alloc, at, text)?)),
        [b'%', text @ ..] => Ok(Some(unhexed(alloc, at, text)?)),
        _ => Ok(None),
    }
}

/// Whether a line says nothing: an empty one, or a comment.
fn is_silent(line: &[u8]) -> bool {
    matches!(line, [] | [b'#', ..])
}

/// Whether a line ends with a blank, which can't be seen.
fn ends_blank(line: &[u8]) -> bool {
    matches!(line, [.., b' ' | b'\t' | b'\r'])
}

/// Whether a line begins with a letter, as the name of a section does.
fn is_named(line: &[u8]) -> bool {
    matches!(line, [b'a'..=b'z', ..])
}

impl Reader {
    /// Nothing read yet.
    fn new(alloc: Global) -> Reader
        ensures { begun result ≡ 0 }
    {
        Reader {
            alloc,
            cases: Vec::new(alloc),
            titles: BTreeSet::new(alloc),
            kind: None,
            heading: None,
            body: Body {
                sections: Vec::new(alloc),
                open: None,
            },
            shared: Vec::new(alloc),
        }
    }

    /// Ends the case that is being read, or the sections that the cases share.
    fn end_case(&mut self) -> Result<(), CaseFault>
        ensures whole { OnOk result (vec_len self.new.cases ≡ begun self.old) }
        ensures same { OnOk result (begun self.new ≡ begun self.old) }
    {
        let sections = self.body.change(Vec::new(self.alloc))?;
        match (self.heading.take(), &self.kind) {
            (None, _) => self.shared = sections,
            (Some(heading), None) => return Err(CaseFault::Wrong(heading.line, Wrong::NoKind)),
            (Some(heading), Some(kind)) => self.cases.push(Case {
                line: heading.line,
                kind: kind.copy()?,
                title: heading.title,
                sections: List::from_vec(sections),
            })?,
        }
        Ok(())
    }

    /// Names the kind of the cases below.
    fn begin_kind(&mut self, line: u32, name: &[u8]) -> Result<(), CaseFault>
        ensures { OnOk result (begun self.new ≡ begun self.old) }
    {
        if name.is_empty() {
            return Err(CaseFault::Wrong(line, Wrong::Kind));
        }
        self.end_case()?;
        self.shared = Vec::new(self.alloc);
        self.kind = Some(Text::from_bytes(self.alloc, name)?);
        Ok(())
    }

    /// Takes down a title. One that an earlier case has is refused.
    fn add_title(&mut self, line: u32, title: &[u8]) -> Result<(), CaseFault>
        ensures { OnOk result (begun self.new ≡ begun self.old) }
    {
        if title.is_empty() {
            return Err(CaseFault::Wrong(line, Wrong::NoTitle));
        }
        if self.titles.insert(Text::from_bytes(self.alloc, title)?)? {
            return Ok(());
        }
        Err(CaseFault::Wrong(line, Wrong::SameTitle))
    }

    /// Begins a case.
    fn begin_case(&mut self, line: u32, title: &[u8]) -> Result<(), CaseFault>
        ensures { OnOk result (begun self.new ≡ begun self.old + 1) }
    {
        if self.kind.is_none() {
            return Err(CaseFault::Wrong(line, Wrong::NoKind));
        }
        self.add_title(line, title)?;
        self.end_case()?;
        self.body.change(self.shared.clone()?)?;
        self.heading = Some(Heading {
            line,
            title: Text::from_bytes(self.alloc, title)?,
        });
        Ok(())
    }

    /// Begins a section.
    fn begin_section(&mut self, line: u32, heading: &[u8]) -> Result<(), CaseFault>
        ensures { OnOk result (begun self.new ≡ begun self.old) }
    {
        if self.kind.is_none() {
            return Err(CaseFault::Wrong(line, Wrong::NoKind));
        }
        self.body.begin(self.alloc, line, heading)?;
        Ok(())
    }

    /// Takes a line of a section: its name, or a line with a margin.
    fn take_section_line(&mut self, at: u32, line: &[u8]) -> Result<(), CaseFault>
        ensures { OnOk result (begun self.new ≡ begun self.old) }
    {
        if let Some(bytes) = margin_bytes(self.alloc, at, line)? {
            return self.body.add(piece_of(self.alloc, at, line, bytes)?);
        }
        if is_named(line) {
            return self.begin_section(at, line);
        }
        Err(CaseFault::Wrong(at, Wrong::Line))
    }

    /// Takes a line.
    fn take_line(&mut self, at: u32, line: &[u8]) -> Result<(), CaseFault>
        ensures { OnOk result (begun self.new ≡ begun self.old + (if begins_case line.now then 1 else 0)) }
    {
        if ends_blank(line) {
            return Err(CaseFault::Wrong(at, Wrong::Blank));
        }
        if let Some(title) = line.strip_prefix(b"= ") {
            return self.begin_case(at, title);
        }
        if is_silent(line) {
            return Ok(());
        }
        if let Some(kind) = line.strip_prefix(b"@ ") {
            return self.begin_kind(at, kind);
        }
        self.take_section_line(at, line)
    }
}

/// The cases of a text: each line that begins with `= ` begins one, and the text has one at least. The first line
/// that isn't as docs/CASES.md has it is refused.
pub fn cases_of(alloc: Global, text: &[u8]) -> Result<CaseFile, CaseFault>
    ensures { IfOk result (λ file. length file.cases ≡ titles_in text.now) }
{
    let mut reader = Reader::new(alloc);
    let mut at = 0u32;
    for line in text.split(|byte| *byte == b'\n') {
        at = at.saturating_add(1);
        reader.take_line(at, line)?;
    }
    reader.end_case()?;
    if reader.cases.is_empty() {
        return Err(CaseFault::Wrong(at, Wrong::NoCases));
    }
    Ok(CaseFile {
        cases: List::from_vec(reader.cases),
    })
}
