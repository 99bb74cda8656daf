//! What is told of a file of cases: each case whose answer differs, whole, and how many cases and answers there were.

ghost use Rattle.std.specs.Prelude.{◌≡◌, ◌≢◌, ◌<◌, ◌≤◌, IsTrue, true, false};

use crate::bytes::push_all;
use crate::case::{Case, Section};
use crate::fault::CaseFault;
use crate::printing::{Part, push_lines, push_parts};
use cm_base::NoMemory;
use std::alloc::Global;

/// What is told of a file: its cases that were tried, the answers that were compared and those of them that differed,
/// and whether the file or one of its cases couldn't be tried.
#[derive(Drop)]
pub struct Report {
    alloc: Global,
    file: String,
    text: Vec<u8>,
    pub cases: u64,
    pub answers: u64,
    pub differing: u64,
    pub is_broken: bool,
}

impl Report {
    /// Nothing told yet of this file.
    pub fn new(alloc: Global, file: &str) -> Result<Report, NoMemory> {
        Ok(Report {
            alloc,
            file: String::from_str(alloc, file)?,
            text: Vec::new(alloc),
            cases: 0,
            answers: 0,
            differing: 0,
            is_broken: false,
        })
    }

    /// What is to be printed.
    pub fn text(&self) -> &[u8] {
        self.text.as_slice()
    }

    /// Whether there were cases, each could be tried, and no answer differs.
    pub fn is_well(&self) -> bool
        ensures some { IsTrue result → 0 < self.now.cases }
        ensures same { IsTrue result → self.now.differing ≡ 0 }
        ensures tried { IsTrue result → self.now.is_broken ≡ false }
    {
        !self.is_broken && self.differing == 0 && self.cases > 0
    }

    /// Counts a case.
    pub fn count_case(&mut self)
        ensures some { 0 < self.new.cases }
        ensures differing { self.new.differing ≡ self.old.differing }
        ensures broken { self.new.is_broken ≡ self.old.is_broken }
    {
        self.cases = self.cases.saturating_add(1);
    }

    /// Tells why the file, or one of its cases, can't be tried. Want of memory is no such reason, and is handed on.
    pub fn refuse(&mut self, fault: CaseFault) -> Result<(), NoMemory>
        ensures broken { self.new.is_broken ≡ true }
        ensures differing { self.new.differing ≡ self.old.differing }
    {
        self.is_broken = true;
        push_fault(self.alloc, &mut self.text, self.file.as_bytes(), &fault)
    }

    /// Compares an answer with the one that is wanted. Where they differ the whole case is told with the answer,
    /// and the line at which it stands with these words.
    pub fn compare(
        &mut self,
        case: &Case,
        line: u32,
        said: &[u8],
        wanted: &[u8],
        given: &[u8],
    ) -> Result<(), NoMemory>
        ensures differs { wanted.now ≢ given.now → 0 < self.new.differing }
        ensures same { wanted.now ≡ given.now → self.new.differing ≡ self.old.differing }
        ensures later { self.old.differing ≤ self.new.differing }
        ensures broken { self.new.is_broken ≡ self.old.is_broken }
    {
        self.answers = self.answers.saturating_add(1);
        if given == wanted {
            return Ok(());
        }
        self.differing = self.differing.saturating_add(1);
        let (alloc, out) = (self.alloc, &mut self.text);
        push_place(alloc, out, self.file.as_bytes(), line, said)?;
        push_case(alloc, out, case)?;
        push_answer(out, given)
    }

    /// Adds the last line, which has the counts.
    pub fn end(&mut self) -> Result<(), NoMemory> {
        let counts = [
            Part::Text(self.file.as_bytes()),
            Part::Text(b": "),
            Part::Number(self.cases),
            Part::Text(b" cases, "),
            Part::Number(self.answers),
            Part::Text(b" answers, "),
            Part::Number(self.differing),
            Part::Text(b" differ\n"),
        ];
        push_parts(self.alloc, &mut self.text, &counts)
    }
}

/// Adds a line: a file, a line of it, and what is said of that line.
fn push_place<'x>(
    alloc: Global,
    out: &mut Vec<u8>,
    file: &'x [u8],
    line: u32,
    said: &'x [u8],
) -> Result<(), NoMemory> {
    let place = [
        Part::Text(file),
        Part::Text(b":"),
        Part::Number(u64::from(line)),
        Part::Text(b": "),
        Part::Text(said),
        Part::Text(b"\n"),
    ];
    push_parts(alloc, out, &place)
}

/// Adds a line: a file, and why it can't be read.
fn push_unreadable<'x>(
    alloc: Global,
    out: &mut Vec<u8>,
    file: &'x [u8],
    said: &'x [u8],
) -> Result<(), NoMemory> {
    let parts = [
        Part::Text(file),
        Part::Text(b": this file can't be read: "),
        Part::Text(said),
        Part::Text(b"\n"),
    ];
    push_parts(alloc, out, &parts)
}

/// Adds a line that tells why a file, or a case of it, can't be tried. Want of memory is handed on.
fn push_fault(
    alloc: Global,
    out: &mut Vec<u8>,
    file: &[u8],
    fault: &CaseFault,
) -> Result<(), NoMemory> {
    match fault {
        CaseFault::Wrong(line, wrong) => push_place(alloc, out, file, *line, wrong.said()),
        CaseFault::Unreadable(kind) => {
            let said = format!(in alloc; "{kind}")?;
            push_unreadable(alloc, out, file, said.as_bytes())
        }
        CaseFault::NoMemory => Err(NoMemory),
    }
}

/// Adds an answer that differs, in lines with margins.
fn push_answer(out: &mut Vec<u8>, given: &[u8]) -> Result<(), NoMemory> {
    push_all(out, b"but it is\n")?;
    push_lines(out, given)?;
    push_all(out, b"\n")
}

/// Adds a section as it stands in its file.
fn push_section(alloc: Global, out: &mut Vec<u8>, section: &Section) -> Result<(), NoMemory> {
    let words = section.words.as_bytes();
    let heading = [
        Part::Text(section.name.as_bytes()),
        Part::Text(if words.is_empty() { b"" } else { b" " }),
        Part::Text(words),
        Part::Text(b"\n"),
    ];
    push_parts(alloc, out, &heading)?;
    for piece in section.pieces.as_slice() {
        let line = [Part::Text(piece.written.as_bytes()), Part::Text(b"\n")];
        push_parts(alloc, out, &line)?;
    }
    Ok(())
}

/// Adds a case as it stands in its file.
fn push_case(alloc: Global, out: &mut Vec<u8>, case: &Case) -> Result<(), NoMemory> {
    let title = [
        Part::Text(b"= "),
        Part::Text(case.title.as_bytes()),
        Part::Text(b"\n"),
    ];
    push_parts(alloc, out, &title)?;
    for section in case.sections.as_slice() {
        push_section(alloc, out, section)?;
    }
    Ok(())
}
