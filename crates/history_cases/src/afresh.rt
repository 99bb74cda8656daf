//! A build over the store that earlier commands left, beside a build of the same project in a fresh folder.

use crate::sketch::{LINKED, Sketch, paths_below};
use case_commands::run;
use case_files::{Part, push_all, push_parts};
use cm_base::{Folder, MemSink, NoMemory, SureFolder, Text};
use cm_top::Status;
use std::alloc::Global;
use test_compilers::Seamed;

/// How a command ended, what it printed, and whether it asked its compiler for something.
#[derive(Drop)]
pub struct Ended {
    pub status: Status,
    pub printed: Text,
    has_asked: bool,
}

/// How a build over an old store ended, and how one in a fresh folder, with that folder.
#[derive(Drop)]
struct Pair {
    given: Ended,
    wanted: Ended,
    fresh: SureFolder,
}

/// What is found of a list of edits: a line for each thing that isn't as it should be.
#[derive(Drop)]
pub struct Findings {
    alloc: Global,
    list: u32,
    pub lines: Vec<u8>,
}

/// Words as a program is given them.
pub fn strings(alloc: Global, words: &[&'static str]) -> Result<Vec<String>, NoMemory> {
    let mut strings = Vec::new(alloc);
    for word in words {
        strings.push(String::from_str(alloc, word)?)?;
    }
    Ok(strings)
}

/// The words of a build of the project.
pub fn words_of(alloc: Global, definition: Option<&'static str>) -> Result<Vec<String>, NoMemory> {
    match definition {
        Some(definition) => strings(alloc, &["build", "-D", definition, "main.cm"]),
        None => strings(alloc, &["build", "main.cm"]),
    }
}

/// Runs the command of these words over a folder.
pub fn run_over<F: Folder>(
    alloc: Global,
    words: &[String],
    folder: &mut F,
) -> Result<Ended, NoMemory> {
    let mut out = MemSink::new(alloc);
    let mut compiler = Seamed::new(alloc);
    let status = run(alloc, words, folder, &mut out, &mut compiler)?;
    Ok(Ended {
        status,
        printed: Text::from_bytes(alloc, out.bytes())?,
        has_asked: !compiler.asked.is_empty() || !compiler.asked_skeletons.is_empty(),
    })
}

/// Builds a project over its store and in a fresh folder.
fn build_both(alloc: Global, words: &[String], sketch: &mut Sketch) -> Result<Pair, NoMemory> {
    let mut fresh = sketch.project()?;
    let wanted = run_over(alloc, words, &mut fresh)?;
    let given = run_over(alloc, words, &mut sketch.folder)?;
    Ok(Pair {
        given,
        wanted,
        fresh,
    })
}

/// A line of a report without what it says of the store: a unit, a diagnostic, or how many units there are.
fn plain_line(line: &[u8]) -> &[u8] {
    let said = line
        .strip_prefix(b"[compiling ")
        .or(line.strip_prefix(b"[loading "))
        .unwrap_or(line);
    match said.iter().position(|byte| *byte == b',') {
        Some(comma) => &said[..comma],
        None => said,
    }
}

/// A report without what it says of the store.
fn plain_report(alloc: Global, report: &Text) -> Result<Vec<u8>, NoMemory> {
    let mut out = Vec::new(alloc);
    for line in report.as_bytes().split(|byte| *byte == b'\n') {
        push_all(&mut out, plain_line(line))?;
        push_all(&mut out, b"\n")?;
    }
    Ok(out)
}

impl Findings {
    /// Nothing is found yet of the list of this number.
    pub fn new(alloc: Global, list: u32) -> Findings {
        Findings {
            alloc,
            list,
            lines: Vec::new(alloc),
        }
    }

    /// Adds what is found.
    pub fn add<'x>(&mut self, said: &'x [u8], what: &'x [u8]) -> Result<(), NoMemory> {
        let list = u64::from(self.list);
        let parts = [
            Part::Text(b"list "),
            Part::Number(list),
            Part::Text(said),
            Part::Text(what),
            Part::Text(b"\n"),
        ];
        push_parts(self.alloc, &mut self.lines, &parts)
    }

    /// Compares how two builds ended and what they printed.
    fn compare_reports(&mut self, given: &Ended, wanted: &Ended) -> Result<(), NoMemory> {
        let printed = plain_report(self.alloc, &given.printed)?;
        let plain = plain_report(self.alloc, &wanted.printed)?;
        if given.status != wanted.status || printed.as_slice() != plain.as_slice() {
            self.add(b" prints\n", given.printed.as_bytes())?;
            self.add(b" prints in a fresh folder\n", wanted.printed.as_bytes())?;
        }
        Ok(())
    }

    /// Looks whether each file of a folder whose path begins so stands in another folder too.
    pub fn compare_files(
        &mut self,
        folder: &SureFolder,
        wanted: &mut SureFolder,
        prefix: &[u8],
    ) -> Result<(), NoMemory> {
        for path in paths_below(self.alloc, wanted, prefix)?.as_slice() {
            if folder.get(path) != wanted.get(path) {
                self.add(b" leaves another file ", path.as_bytes())?;
            }
        }
        Ok(())
    }

    /// Looks whether a build of a project that was just built asks for nothing.
    fn look_again(&mut self, words: &[String], sketch: &mut Sketch) -> Result<(), NoMemory> {
        let again = run_over(self.alloc, words, &mut sketch.folder)?;
        if again.has_asked {
            self.add(b" asks again\n", again.printed.as_bytes())?;
        }
        Ok(())
    }

    /// Looks whether the linked program is as it was before.
    fn look_at_linked(&mut self, sketch: &Sketch, before: &[u8]) -> Result<(), NoMemory> {
        if sketch.linked()?.as_slice() != before {
            self.add(b" changes ", LINKED)?;
        }
        Ok(())
    }

    /// Builds a project by these words over its store and in a fresh folder, and compares what they print and leave.
    /// Answers how the build over the store ended.
    fn compare(&mut self, words: &[String], sketch: &mut Sketch) -> Result<Ended, NoMemory> {
        let mut pair = build_both(self.alloc, words, sketch)?;
        self.compare_reports(&pair.given, &pair.wanted)?;
        self.compare_files(&sketch.folder.files, &mut pair.fresh, b".cm/")?;
        Ok(pair.given)
    }

    /// Builds a project over its store and compares that with a build in a fresh folder. After a build that ends well a
    /// second one has to ask for nothing; one that doesn't has to leave the linked program that was there. Answers how
    /// the build ended.
    pub fn build_and_compare(&mut self, sketch: &mut Sketch) -> Result<Ended, NoMemory> {
        let words = words_of(self.alloc, sketch.definition)?;
        let before = sketch.linked()?;
        let ended = self.compare(words.as_slice(), sketch)?;
        if ended.status == Status::Ok {
            self.look_again(words.as_slice(), sketch)?;
        } else {
            self.look_at_linked(sketch, before.as_slice())?;
        }
        Ok(ended)
    }
}
