//! A list of edits and commands played as calls of their own, and again as one script of a session.

use crate::afresh::{Ended, Findings, run_over, strings, words_of};
use crate::sketch::Sketch;
use case_files::push_all;
use cm_base::{NoMemory, SureFolder, Text};
use cm_top::Status;
use std::alloc::Global;

/// A project whose commands are calls of their own, and what a session prints of them.
#[derive(Drop)]
pub struct Calls {
    alloc: Global,
    pub sketch: Sketch,
    printed: Vec<u8>,
}

/// The line that a session prints behind a command that ended so. Where nothing fails and the words are a command none
/// of the other statuses comes.
fn status_line(status: Status) -> &'static [u8] {
    match status {
        Status::Ok => b"[status 0]\n",
        Status::Diagnostic => b"[status 1]\n",
        Status::Usage
        | Status::FolderFault
        | Status::SinkFault
        | Status::NoMemory
        | Status::ToolFault => b"[status 2]\n",
    }
}

/// The path of the script in its folder.
fn script_path(alloc: Global) -> Result<Text, NoMemory> {
    Text::from_bytes(alloc, b"s.txt")
}

/// A folder with a script alone.
fn folder_of(alloc: Global, script: &[u8]) -> Result<SureFolder, NoMemory> {
    let mut folder = SureFolder::new(alloc);
    folder.put(&script_path(alloc)?, script)?;
    Ok(folder)
}

impl Calls {
    /// The project of this number, before any command.
    pub fn new(alloc: Global, number: u32) -> Result<Calls, NoMemory> {
        Ok(Calls {
            alloc,
            sketch: Sketch::new(alloc, number)?,
            printed: Vec::new(alloc),
        })
    }

    /// Does the command of these words as a call of its own, and answers how it ended.
    pub fn call(&mut self, words: &[String]) -> Result<Status, NoMemory> {
        self.sketch.script.command(words)?;
        let ended = run_over(self.alloc, words, &mut self.sketch.folder)?;
        push_all(&mut self.printed, ended.printed.as_bytes())?;
        push_all(&mut self.printed, status_line(ended.status))?;
        Ok(ended.status)
    }

    /// Builds the project as the last call.
    fn build(&mut self) -> Result<Status, NoMemory> {
        let words = words_of(self.alloc, self.sketch.definition)?;
        self.call(words.as_slice())
    }

    /// Plays the script of all edits and calls so far in a folder, which then has what it leaves.
    fn play_script(&self, folder: &mut SureFolder) -> Result<Ended, NoMemory> {
        let words = strings(self.alloc, &["session", "s.txt"])?;
        let ended = run_over(self.alloc, words.as_slice(), folder)?;
        folder.take(&script_path(self.alloc)?);
        Ok(ended)
    }
}

impl Findings {
    /// Compares what a session printed with what the calls did.
    fn compare_printed(&mut self, calls: &Calls, session: &Ended) -> Result<(), NoMemory> {
        let printed = calls.printed.as_slice();
        if session.status != Status::Ok || session.printed.as_bytes() != printed {
            self.add(b" prints as a script\n", session.printed.as_bytes())?;
            self.add(b" prints as calls\n", printed)?;
        }
        Ok(())
    }

    /// Plays the script of calls where there is nothing yet, and compares what both print and leave.
    fn compare_script(&mut self, calls: &mut Calls) -> Result<(), NoMemory> {
        let mut folder = folder_of(calls.alloc, calls.sketch.script.text.as_slice())?;
        let session = calls.play_script(&mut folder)?;
        self.compare_printed(calls, &session)?;
        self.compare_files(&folder, &mut calls.sketch.folder.files, b"")?;
        self.compare_files(&calls.sketch.folder.files, &mut folder, b"")
    }

    /// Builds the project at the end of calls, plays all of it again as a script, and builds the project in a fresh
    /// folder. Answers how a further build over the store of the calls ended.
    pub fn compare_ways(&mut self, calls: &mut Calls) -> Result<Ended, NoMemory> {
        calls.build()?;
        self.compare_script(calls)?;
        self.build_and_compare(&mut calls.sketch)
    }
}
