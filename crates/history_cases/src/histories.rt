//! Lists of edits and commands, and what the next build makes of the store that each of them leaves.

use crate::afresh::{Ended, Findings, strings};
use crate::calls::Calls;
use crate::counter::Counter;
use crate::sketch::Sketch;
use crate::tally::Tally;
use case_commands::{run, status_word};
use case_files::{CaseFault, Section, push_all};
use case_scenes::{Answer, Stage, counted, number_text, path_and_word, unknown};
use cm_base::{CallKind, FailAt, Left, List, MemSink, NoMemory, Text};
use cm_top::Status;
use std::alloc::Global;
use test_compilers::Seamed;

/// What lists of edits did, and what was built behind them.
#[derive(Drop)]
pub struct Histories {
    edits: Tally,
    commands: Tally,
    builds: Tally,
    units: Tally,
}

/// A section of lists of edits.
#[derive(Clone, Copy)]
enum Step {
    /// `lists COUNT EDITS`: so many lists of so many edits, with commands between them of which some fail; the project
    /// that each leaves is built over its store and in a fresh folder. The lines below are what differs.
    Lists,
    /// `scripts COUNT EDITS`: the same where nothing fails and no edit is of the store; besides each list is played as
    /// one script of a session, from an empty folder.
    Scripts,
    /// `edits source|exchange|upper|lower|definition|removal|store COUNT`: so many edits at least were of this kind.
    Edits,
    /// `commands STATUS COUNT`: so many commands at least ended so.
    Commands,
    /// `builds STATUS COUNT`: so many builds behind a list at least ended so.
    Builds,
    /// `units compiling|loading COUNT`: so many units at least were compiled, or loaded, in builds behind a list.
    Units,
}

/// The steps with their names.
const STEPS: [(&[u8], Step); 6] = [
    (b"lists", Step::Lists),
    (b"scripts", Step::Scripts),
    (b"edits", Step::Edits),
    (b"commands", Step::Commands),
    (b"builds", Step::Builds),
    (b"units", Step::Units),
];

/// How lists are played.
#[derive(Clone, Copy)]
enum Way {
    /// Over a store that edits and failing calls harm.
    Harmed,
    /// As calls of their own and as a script.
    Told,
}

/// The step of this name.
fn step_of(name: &[u8]) -> Option<Step> {
    for (known, step) in STEPS {
        if known == name {
            return Some(step);
        }
    }
    None
}

/// What the next failing call leaves.
fn next_left(counter: &mut Counter) -> Left {
    match counter.below(3) {
        0 => Left::Old,
        1 => Left::Nothing,
        _ => Left::Prefix(counter.below(200)),
    }
}

/// The next failing call: a read or a write.
fn next_failure(counter: &mut Counter) -> FailAt {
    let kind = if counter.takes(2) {
        CallKind::Read
    } else {
        CallKind::Write
    };
    FailAt {
        kind,
        nth: counter.below(30).saturating_add(1),
        left: next_left(counter),
    }
}

/// What fails in the next command of a folder: mostly nothing.
fn next_failures(alloc: Global, counter: &mut Counter) -> Result<List<FailAt>, NoMemory> {
    let mut plan = List::new(alloc);
    if counter.takes(3) {
        plan.add(next_failure(counter))?;
    }
    Ok(plan)
}

/// An output that seldom fails.
fn next_sink(alloc: Global, counter: &mut Counter) -> Result<MemSink, NoMemory> {
    let mut out = MemSink::new(alloc);
    if counter.takes(30) {
        let mut puts = List::new(alloc);
        puts.add(1)?;
        out.fail(puts);
    }
    Ok(out)
}

/// The words of the next command: a build of the project or of its lower group, or one that writes a program besides.
fn next_words(alloc: Global, sketch: &mut Sketch) -> Result<Vec<String>, NoMemory> {
    let definition = sketch.definition.unwrap_or("Y=1");
    match sketch.counter.below(8) {
        0 => strings(alloc, &["build", "-D", definition, "lower.cm"]),
        1 => strings(alloc, &["link", "-D", definition, "main.cm", "out/program"]),
        _ => strings(alloc, &["build", "-D", definition, "main.cm"]),
    }
}

/// Runs the next command over a project.
fn run_next(alloc: Global, sketch: &mut Sketch) -> Result<Status, NoMemory> {
    sketch
        .folder
        .fail(next_failures(alloc, &mut sketch.counter)?);
    let words = next_words(alloc, sketch)?;
    let mut out = next_sink(alloc, &mut sketch.counter)?;
    let mut compiler = Seamed::new(alloc);
    let folder = &mut sketch.folder;
    let status = run(alloc, words.as_slice(), folder, &mut out, &mut compiler)?;
    sketch.folder.fail(List::new(alloc));
    Ok(status)
}

/// What a line of a report says of its unit.
fn way_of(line: &[u8]) -> Option<&'static [u8]> {
    if line.starts_with(b"[compiling ") {
        Some(b"compiling")
    } else if line.starts_with(b"[loading ") {
        Some(b"loading")
    } else {
        None
    }
}

impl Histories {
    /// No list yet.
    pub fn new(alloc: Global) -> Histories {
        Histories {
            edits: Tally::new(alloc),
            commands: Tally::new(alloc),
            builds: Tally::new(alloc),
            units: Tally::new(alloc),
        }
    }

    /// Does so many edits, with commands between them.
    fn edit(&mut self, alloc: Global, sketch: &mut Sketch, edits: u32) -> Result<(), NoMemory> {
        for _ in 0..edits {
            self.edits.count(sketch.edit()?)?;
            if sketch.counter.takes(2) {
                let status = run_next(alloc, sketch)?;
                self.commands.count(status_word(status))?;
            }
        }
        Ok(())
    }

    /// Counts how a build behind a list ended, and its units.
    fn count_build(&mut self, ended: &Ended) -> Result<(), NoMemory> {
        self.builds.count(status_word(ended.status))?;
        for line in ended.printed.as_bytes().split(|byte| *byte == b'\n') {
            if let Some(way) = way_of(line) {
                self.units.count(way)?;
            }
        }
        Ok(())
    }

    /// Does so many edits of a project, with commands between them that are calls of their own.
    fn edit_by_calls(
        &mut self,
        alloc: Global,
        calls: &mut Calls,
        edits: u32,
    ) -> Result<(), NoMemory> {
        for _ in 0..edits {
            self.edits.count(calls.sketch.edit_project()?)?;
            if calls.sketch.counter.takes(2) {
                let words = next_words(alloc, &mut calls.sketch)?;
                let status = calls.call(words.as_slice())?;
                self.commands.count(status_word(status))?;
            }
        }
        Ok(())
    }

    /// What is found of the list of this number over a store that is harmed.
    fn play_harmed(&mut self, alloc: Global, number: u32, edits: u32) -> Result<Vec<u8>, NoMemory> {
        let mut sketch = Sketch::new(alloc, number)?;
        self.edit(alloc, &mut sketch, edits)?;
        let mut findings = Findings::new(alloc, number);
        let ended = findings.build_and_compare(&mut sketch)?;
        self.count_build(&ended)?;
        Ok(findings.lines)
    }

    /// What is found of the list of this number as calls and as a script.
    fn play_told(&mut self, alloc: Global, number: u32, edits: u32) -> Result<Vec<u8>, NoMemory> {
        let mut calls = Calls::new(alloc, number)?;
        self.edit_by_calls(alloc, &mut calls, edits)?;
        let mut findings = Findings::new(alloc, number);
        let ended = findings.compare_ways(&mut calls)?;
        self.count_build(&ended)?;
        Ok(findings.lines)
    }

    /// What is found of the list of this number.
    fn play_list(
        &mut self,
        alloc: Global,
        way: Way,
        number: u32,
        edits: u32,
    ) -> Result<Vec<u8>, NoMemory> {
        match way {
            Way::Harmed => self.play_harmed(alloc, number, edits),
            Way::Told => self.play_told(alloc, number, edits),
        }
    }

    /// What is found of all lists.
    fn play_lists(
        &mut self,
        alloc: Global,
        way: Way,
        lists: u32,
        edits: u32,
    ) -> Result<Text, NoMemory> {
        let mut found = Vec::new(alloc);
        for number in 0..lists {
            let lines = self.play_list(alloc, way, number, edits)?;
            push_all(&mut found, lines.as_slice())?;
        }
        Ok(Text::from_vec(found))
    }

    /// The answer of a section of lists.
    fn lists_answer(
        &mut self,
        alloc: Global,
        way: Way,
        section: &Section,
    ) -> Result<Answer, CaseFault> {
        let (lists, edits) = path_and_word(section)?;
        let (lists, edits) = (counted(section, lists)?, counted(section, edits)?);
        Ok(Answer {
            wanted: section.bytes(alloc)?,
            given: self.play_lists(alloc, way, lists, edits)?,
        })
    }
}

/// The answer of a section that says how many there are at least.
fn least_answer(alloc: Global, section: &Section, tally: &Tally) -> Result<Answer, CaseFault> {
    let (word, least) = path_and_word(section)?;
    let least = counted(section, least)?;
    let count = tally.of(word).min(least);
    Ok(Answer {
        wanted: number_text(alloc, least as usize)?,
        given: number_text(alloc, count as usize)?,
    })
}

impl Stage for Histories {
    fn take(&mut self, alloc: Global, section: &Section) -> Result<Option<Answer>, CaseFault> {
        let answer = match step_of(section.name.as_bytes()) {
            Some(Step::Lists) => self.lists_answer(alloc, Way::Harmed, section)?,
            Some(Step::Scripts) => self.lists_answer(alloc, Way::Told, section)?,
            Some(Step::Edits) => least_answer(alloc, section, &self.edits)?,
            Some(Step::Commands) => least_answer(alloc, section, &self.commands)?,
            Some(Step::Builds) => least_answer(alloc, section, &self.builds)?,
            Some(Step::Units) => least_answer(alloc, section, &self.units)?,
            None => return Err(unknown(section)),
        };
        Ok(Some(answer))
    }
}
