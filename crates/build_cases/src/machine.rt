//! Calls of the machine's folder and output, in a directory that is made for the case and taken away behind it.

use case_files::{Case, CaseFault, Report, Section, push_all};
use case_scenes::{Answer, Stage, counted, path_lines, play_on, push_shown, repeated, unknown};
use cm_base::{Folder, FolderFault, List, NoMemory, Sink, SinkFault, Text};
use cm_host::{RealFolder, RealSink};
use std::alloc::Global;
use std::io::ErrorKind;
use std::{env, fs, io};

/// The most directories of one name that may stand beside one another.
const DIRECTORIES: u32 = 1_000;

/// A folder of the machine, and the path of its next calls.
#[derive(Drop)]
struct MachineCalls {
    rt: HostRuntime,
    folder: RealFolder<HostRuntime>,
    path: Text,
}

/// A section of the machine's calls. STATUS is `ok`, `missing` or `failed`.
#[derive(Clone, Copy)]
enum Step {
    /// `path PATH`: the path of the calls that follow; the lines below, where none stands behind it.
    Path,
    /// `write STATUS [COUNT]`: writes the lines below, so many times.
    Write,
    /// `read MOST STATUS`: reads up to one byte more than MOST; the lines below are what the reader then has. It had
    /// a `?` before.
    Read,
    /// `remove STATUS`: takes the file away.
    Remove,
    /// `list STATUS`: the lines below are the files whose path begins so.
    List,
    /// `put STATUS`: puts the lines below to the output.
    Put,
}

/// The steps with their names.
const STEPS: [(&[u8], Step); 6] = [
    (b"path", Step::Path),
    (b"write", Step::Write),
    (b"read", Step::Read),
    (b"remove", Step::Remove),
    (b"list", Step::List),
    (b"put", Step::Put),
];

/// The step of this name.
fn step_of(name: &[u8]) -> Option<Step> {
    for (known, step) in STEPS {
        if known == name {
            return Some(step);
        }
    }
    None
}

/// How a call ended, and the bytes that it gave.
#[derive(Drop)]
struct Ended {
    status: &'static [u8],
    bytes: Text,
}

/// The word for how a call of the folder ended. Want of memory is handed on.
fn status_of(end: Result<(), FolderFault>) -> Result<&'static [u8], NoMemory> {
    match end {
        Ok(()) => Ok(b"ok"),
        Err(FolderFault::Failed) => Ok(b"failed"),
        Err(FolderFault::NoMemory) => Err(NoMemory),
    }
}

/// A line with a status, and bytes behind it.
fn under_status(alloc: Global, status: &[u8], bytes: &[u8]) -> Result<Text, NoMemory> {
    let mut out = Vec::from_slice(alloc, status)?;
    push_all(&mut out, b"\n")?;
    push_all(&mut out, bytes)?;
    Ok(Text::from_vec(out))
}

/// The answer of a call that gives no bytes.
fn bare_answer(alloc: Global, wanted: &[u8], status: &[u8]) -> Result<Answer, NoMemory> {
    Ok(Answer {
        wanted: Text::from_bytes(alloc, wanted)?,
        given: Text::from_bytes(alloc, status)?,
    })
}

/// The answer of a call whose bytes are the lines below a section.
fn whole_answer(
    alloc: Global,
    section: &Section,
    wanted: &[u8],
    ended: &Ended,
) -> Result<Answer, CaseFault> {
    let lines = section.bytes(alloc)?;
    Ok(Answer {
        wanted: under_status(alloc, wanted, lines.as_bytes())?,
        given: under_status(alloc, ended.status, ended.bytes.as_bytes())?,
    })
}

/// A text as it is shown.
fn shown(alloc: Global, bytes: &[u8]) -> Result<Text, NoMemory> {
    let mut out = Vec::new(alloc);
    push_shown(alloc, &mut out, bytes)?;
    Ok(Text::from_vec(out))
}

impl MachineCalls {
    /// The path that a section names.
    fn set_path(&mut self, alloc: Global, section: &Section) -> Result<(), CaseFault> {
        self.path = if section.words.as_bytes().is_empty() {
            section.bytes(alloc)?
        } else {
            section.words.copy()?
        };
        Ok(())
    }

    /// Writes the lines below a section, so many times.
    fn write(
        &mut self,
        alloc: Global,
        section: &Section,
        wanted: &[u8],
        count: u32,
    ) -> Result<Answer, CaseFault> {
        let lines = section.bytes(alloc)?;
        let bytes = repeated(alloc, lines.as_bytes(), count)?;
        let end = self.folder.write(alloc, &self.path, bytes.as_slice());
        Ok(bare_answer(alloc, wanted, status_of(end)?)?)
    }

    /// Takes the file away.
    fn remove(&mut self, alloc: Global, wanted: &[u8]) -> Result<Answer, NoMemory> {
        let end = self.folder.remove(alloc, &self.path);
        bare_answer(alloc, wanted, status_of(end)?)
    }

    /// Reads the file into a vector that has a `?`.
    fn read(&mut self, alloc: Global, most: u32) -> Result<Ended, NoMemory> {
        let mut into = Vec::from_slice(alloc, b"?")?;
        let status: &'static [u8] = match self.folder.read(alloc, &self.path, most, &mut into) {
            Ok(true) => b"ok",
            Ok(false) => b"missing",
            Err(FolderFault::Failed) => b"failed",
            Err(FolderFault::NoMemory) => return Err(NoMemory),
        };
        Ok(Ended {
            status,
            bytes: shown(alloc, into.as_slice())?,
        })
    }

    /// The files whose path begins as is said.
    fn list(&mut self, alloc: Global) -> Result<Ended, NoMemory> {
        let mut paths = List::new(alloc);
        let end = self.folder.list(alloc, &self.path, &mut paths);
        Ok(Ended {
            status: status_of(end)?,
            bytes: path_lines(alloc, paths.as_slice())?,
        })
    }

    /// Puts the lines below a section to the output.
    fn put(
        &mut self,
        alloc: Global,
        section: &Section,
        wanted: &[u8],
    ) -> Result<Answer, CaseFault> {
        let lines = section.bytes(alloc)?;
        let mut out = RealSink::new(self.rt)?;
        let status: &'static [u8] = match out.put(alloc, lines.as_bytes()) {
            Ok(()) => b"ok",
            Err(SinkFault::Failed) => b"failed",
            Err(SinkFault::NoMemory) => return Err(CaseFault::NoMemory),
        };
        Ok(bare_answer(alloc, wanted, status)?)
    }

    /// Does the call of a step with these words.
    fn call(
        &mut self,
        alloc: Global,
        section: &Section,
        step: Step,
        words: &[Text],
    ) -> Result<Answer, CaseFault> {
        match (step, words) {
            (Step::Write, [wanted]) => self.write(alloc, section, wanted.as_bytes(), 1),
            (Step::Write, [wanted, count]) => {
                let count = counted(section, count.as_bytes())?;
                self.write(alloc, section, wanted.as_bytes(), count)
            }
            (Step::Read, [most, wanted]) => {
                let ended = self.read(alloc, counted(section, most.as_bytes())?)?;
                whole_answer(alloc, section, wanted.as_bytes(), &ended)
            }
            (Step::Remove, [wanted]) => Ok(self.remove(alloc, wanted.as_bytes())?),
            (Step::List, [wanted]) => {
                let ended = self.list(alloc)?;
                whole_answer(alloc, section, wanted.as_bytes(), &ended)
            }
            (Step::Put, [wanted]) => self.put(alloc, section, wanted.as_bytes()),
            _ => Err(section.means_nothing()),
        }
    }
}

impl Stage for MachineCalls {
    fn take(&mut self, alloc: Global, section: &Section) -> Result<Option<Answer>, CaseFault> {
        match step_of(section.name.as_bytes()) {
            Some(Step::Path) => {
                self.set_path(alloc, section)?;
                Ok(None)
            }
            Some(step) => {
                let words = section.words(alloc)?;
                Ok(Some(self.call(alloc, section, step, words.as_slice())?))
            }
            None => Err(unknown(section)),
        }
    }
}

/// Makes a directory that wasn't there.
fn new_directory(rt: HostRuntime) -> io::Result<String> {
    let temporary = env::temp_dir(&rt)?;
    for nth in 0..DIRECTORIES {
        let path = format!(in rt.alloc(); "{}/build_cases_{nth}", temporary.as_str())?;
        match fs::create_dir(&rt, path.as_str()) {
            Ok(()) => return Ok(path),
            Err(error) if error.kind() == ErrorKind::AlreadyExists => {}
            Err(error) => return Err(error),
        }
    }
    Err(io::Error::from(ErrorKind::AlreadyExists))
}

/// Tries a case of the machine in a directory that is its own.
pub fn try_on_machine(rt: HostRuntime, case: &Case, report: &mut Report) -> Result<(), CaseFault> {
    let alloc = rt.alloc();
    let directory = new_directory(rt)?;
    let top = Text::from_bytes(alloc, directory.as_bytes())?;
    let mut calls = MachineCalls {
        rt,
        folder: RealFolder::new(rt, &top)?,
        path: Text::from_bytes(alloc, b"")?,
    };
    let end = play_on(alloc, &mut calls, case, report);
    fs::remove_dir_all(&rt, directory.as_str())?;
    end
}
