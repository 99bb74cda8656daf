//! The folder in memory of a case: edits of it, and the failures that its next calls have.

use crate::plan::entry_of;
use crate::texts::{counted, numbered, path_and_word, repeated};
use case_files::{CaseFault, Section, push_all};
use cm_base::{FailAt, List, MemFolder, NoMemory, Text};
use std::alloc::Global;
use std::mem;

/// A folder, and the failures that are planned for what is done next.
#[derive(Drop)]
pub struct Files {
    alloc: Global,
    pub folder: MemFolder,
    plan: List<FailAt>,
    writes_before: usize,
}

/// A section that changes the folder.
#[derive(Clone, Copy)]
enum Change {
    /// `file PATH`: the lines below are written to this file.
    File,
    /// `append PATH COUNT`: the lines below are added to this file, so many times.
    Append,
    /// `numbered PATH COUNT`: the same, each time with its number, from 0, in the place of each `#`.
    Numbered,
    /// `remove PATH`: the file is taken away.
    Remove,
    /// `fail read|write|remove|list NTH [old|nothing|prefix COUNT]`: the NTH such call of what is done next fails.
    Fail,
}

/// The changes with their names.
const CHANGES: [(&[u8], Change); 5] = [
    (b"file", Change::File),
    (b"append", Change::Append),
    (b"numbered", Change::Numbered),
    (b"remove", Change::Remove),
    (b"fail", Change::Fail),
];

/// The change of this name.
fn change_of(name: &[u8]) -> Option<Change> {
    for (known, change) in CHANGES {
        if known == name {
            return Some(change);
        }
    }
    None
}

impl Files {
    /// An empty folder.
    pub fn new(alloc: Global) -> Files {
        Files {
            alloc,
            folder: MemFolder::new(alloc),
            plan: List::new(alloc),
            writes_before: 0,
        }
    }

    /// Does what a section says, if it is one that changes the folder, and answers whether it is.
    pub fn is_changed_by(&mut self, section: &Section) -> Result<bool, CaseFault> {
        match change_of(section.name.as_bytes()) {
            Some(Change::File) => self.put_file(section)?,
            Some(Change::Append) => self.append_repeated(section)?,
            Some(Change::Numbered) => self.append_numbered(section)?,
            Some(Change::Remove) => self.remove_file(section)?,
            Some(Change::Fail) => self.plan_failure(section)?,
            None => return Ok(false),
        }
        Ok(true)
    }

    /// Writes a file.
    fn put_file(&mut self, section: &Section) -> Result<(), CaseFault> {
        let bytes = section.bytes(self.alloc)?;
        Ok(self.folder.put(&section.words, bytes.as_bytes())?)
    }

    /// The bytes of a file; none of one that isn't there.
    fn bytes_of(&self, path: &Text) -> Result<Vec<u8>, NoMemory> {
        Ok(Vec::from_slice(self.alloc, self.folder.get(path).unwrap_or(b""))?)
    }

    /// Adds bytes to a file.
    fn append(&mut self, path: &[u8], more: &[u8]) -> Result<(), NoMemory> {
        let path = Text::from_bytes(self.alloc, path)?;
        let mut bytes = self.bytes_of(&path)?;
        push_all(&mut bytes, more)?;
        self.folder.put(&path, bytes.as_slice())
    }

    /// Adds lines to a file, so many times.
    fn append_repeated(&mut self, section: &Section) -> Result<(), CaseFault> {
        let (path, count) = path_and_word(section)?;
        let lines = section.bytes(self.alloc)?;
        let more = repeated(self.alloc, lines.as_bytes(), counted(section, count)?)?;
        Ok(self.append(path, more.as_slice())?)
    }

    /// Adds lines to a file, so many times and with the number of each time.
    fn append_numbered(&mut self, section: &Section) -> Result<(), CaseFault> {
        let (path, count) = path_and_word(section)?;
        let lines = section.bytes(self.alloc)?;
        let more = numbered(self.alloc, lines.as_bytes(), counted(section, count)?)?;
        Ok(self.append(path, more.as_slice())?)
    }

    /// Takes a file away.
    fn remove_file(&mut self, section: &Section) -> Result<(), CaseFault> {
        if self.folder.get(&section.words).is_none() {
            return Err(section.means_nothing());
        }
        self.folder.files.take(&section.words);
        Ok(())
    }

    /// Plans a failing call.
    fn plan_failure(&mut self, section: &Section) -> Result<(), CaseFault> {
        match entry_of(section.words(self.alloc)?.as_slice()) {
            Some(entry) => Ok(self.plan.add(entry)?),
            None => Err(section.means_nothing()),
        }
    }

    /// Begins what is done next: the failures that were planned are its own, and writes are counted from here.
    pub fn begin(&mut self) {
        let plan = mem::replace(&mut self.plan, List::new(self.alloc));
        self.folder.fail(plan);
        self.writes_before = self.folder.writes().len();
    }

    /// The paths that were written since then, in order.
    pub fn written(&self) -> &[Text] {
        self.folder
            .writes()
            .as_slice()
            .get(self.writes_before..)
            .unwrap_or(&[])
    }
}
