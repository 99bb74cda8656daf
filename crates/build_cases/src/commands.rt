//! Commands over a folder and an output in memory.

use crate::player::Player;
use case_commands::{run, status_word};
use case_files::{CaseFault, Part, Section, push_parts};
use case_scenes::{Answer, Files, Stage, counted, lines_of, look_at, look_of, unknown};
use cm_base::{Compiler, List, MemSink, NoMemory, SureFolder, SureSink, Text};
use cm_top::Status;
use std::alloc::Global;
use std::mem;

/// A folder, what the last command asked its compiler, and what is planned for the next.
#[derive(Drop)]
pub struct Commands<C> {
    files: Files,
    failing_puts: List<u32>,
    words: Vec<Text>,
    compiler: C,
}

/// A section of commands that is neither a change nor a look.
#[derive(Clone, Copy)]
enum Step {
    /// `word [COUNT]`: the lines below, so many times, are a word of the next command, behind those of its own line.
    Word,
    /// `fail-put NTH`: the NTH piece that the next command prints isn't taken whole.
    FailPut,
    /// `cm WORDS`: the command; the lines below are what it prints, and how it ends where it doesn't end well.
    Command,
    /// `sure WORDS`: the same over a folder and an output that never fail.
    Sure,
}

/// The steps with their names.
const STEPS: [(&[u8], Step); 4] = [
    (b"word", Step::Word),
    (b"fail-put", Step::FailPut),
    (b"cm", Step::Command),
    (b"sure", Step::Sure),
];

/// The step of this name.
fn step_of(name: &[u8]) -> Option<Step> {
    for (known, step) in STEPS {
        if known == name {
            return Some(step);
        }
    }
    None
}

/// A word as a program is given it.
fn string_of(alloc: Global, section: &Section, word: &Text) -> Result<String, CaseFault> {
    match String::from_utf8(Vec::from_slice(alloc, word.as_bytes())?) {
        Ok(string) => Ok(string),
        Err(_) => Err(section.means_nothing()),
    }
}

/// Words as a program is given them.
fn strings_of(alloc: Global, section: &Section, words: &[Text]) -> Result<Vec<String>, CaseFault> {
    let mut strings = Vec::new(alloc);
    for word in words {
        strings.push(string_of(alloc, section, word)?)?;
    }
    Ok(strings)
}

/// What a command printed, and a line with how it ended where it didn't end well.
fn printed(alloc: Global, bytes: &[u8], status: Status) -> Result<Text, NoMemory> {
    let mut all = Vec::from_slice(alloc, bytes)?;
    if status != Status::Ok {
        let end = [
            Part::Text(b"["),
            Part::Text(status_word(status)),
            Part::Text(b"]\n"),
        ];
        push_parts(alloc, &mut all, &end)?;
    }
    Ok(Text::from_vec(all))
}

impl<C: Compiler + Player + Drop> Commands<C> {
    /// An empty folder.
    pub fn new(alloc: Global) -> Result<Commands<C>, NoMemory> {
        Ok(Commands {
            files: Files::new(alloc),
            failing_puts: List::new(alloc),
            words: Vec::new(alloc),
            compiler: C::begin(alloc)?,
        })
    }

    /// The words of a command: those of its line, and those that stand before it.
    fn words_of(&mut self, alloc: Global, section: &Section) -> Result<Vec<String>, CaseFault> {
        let mut words = section.words(alloc)?;
        for word in mem::replace(&mut self.words, Vec::new(alloc)) {
            words.push(word)?;
        }
        strings_of(alloc, section, words.as_slice())
    }

    /// Plans a failing put of the output.
    fn plan_failing_put(&mut self, section: &Section) -> Result<(), CaseFault> {
        let nth = counted(section, section.words.as_bytes())?;
        Ok(self.failing_puts.add(nth)?)
    }

    /// Runs a command with the failures that are planned, and answers what is printed.
    fn run_planned(&mut self, alloc: Global, words: &[String]) -> Result<Text, NoMemory> {
        let mut out = MemSink::new(alloc);
        out.fail(mem::replace(&mut self.failing_puts, List::new(alloc)));
        self.files.begin();
        self.compiler = C::begin(alloc)?;
        let folder = &mut self.files.folder;
        let status = run(alloc, words, folder, &mut out, &mut self.compiler)?;
        printed(alloc, out.bytes(), status)
    }

    /// Runs a command over a folder and an output that never fail, and answers what is printed.
    fn run_sure(&mut self, alloc: Global, words: &[String]) -> Result<Text, NoMemory> {
        let mut out = SureSink::new(alloc);
        self.files.begin();
        self.compiler = C::begin(alloc)?;
        let folder: &mut SureFolder = &mut self.files.folder.files;
        let status = run(alloc, words, folder, &mut out, &mut self.compiler)?;
        printed(alloc, out.bytes(), status)
    }

    /// Takes a step; a command has an answer.
    fn take_step(
        &mut self,
        alloc: Global,
        step: Step,
        section: &Section,
    ) -> Result<Option<Text>, CaseFault> {
        match step {
            Step::Word => self.words.push(lines_of(alloc, section)?)?,
            Step::FailPut => self.plan_failing_put(section)?,
            Step::Command => {
                let words = self.words_of(alloc, section)?;
                return Ok(Some(self.run_planned(alloc, words.as_slice())?));
            }
            Step::Sure => {
                let words = self.words_of(alloc, section)?;
                return Ok(Some(self.run_sure(alloc, words.as_slice())?));
            }
        }
        Ok(None)
    }
}

impl<C: Compiler + Player + Drop> Stage for Commands<C> {
    fn take(&mut self, alloc: Global, section: &Section) -> Result<Option<Answer>, CaseFault> {
        if self.files.is_changed_by(section)? {
            return Ok(None);
        }
        if let Some(look) = look_of(section.name.as_bytes()) {
            let answer = look_at(alloc, look, section, &self.files, self.compiler.asked_of())?;
            return Ok(Some(answer));
        }
        let Some(step) = step_of(section.name.as_bytes()) else {
            return Err(unknown(section));
        };
        match self.take_step(alloc, step, section)? {
            Some(given) => Ok(Some(Answer {
                wanted: section.bytes(alloc)?,
                given,
            })),
            None => Ok(None),
        }
    }
}
