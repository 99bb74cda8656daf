//! Loading of a project of groups and libraries from a folder in memory.

use crate::listing::{finished_lines, group_lines, loaded_line, refused_lines, unit_lines};
use crate::many_files::put_files;
use case_files::{CaseFault, Section, number_of};
use case_scenes::{Answer, Files, Stage, lines_of, unknown};
use cm_base::{Def, List, NoMemory, Text};
use cm_description::{Project, UnitBody};
use group_loader::{LoadFault, load};
use member_tools::{BundledTool, Toolbox};
use std::alloc::Global;

/// A folder, what is loaded from it and how, and the project that was loaded last.
#[derive(Drop)]
pub struct ProjectCalls {
    files: Files,
    defs: List<Def>,
    root: Text,
    freezing: bool,
    project: Project,
}

/// A section of loading that is no change of the folder.
#[derive(Clone, Copy)]
enum Step {
    /// `files PATH COUNT`: many files, by their numbers.
    Files,
    /// `root [COUNT]`: the lines below, so many times, are ROOT as it is written.
    Root,
    /// `define NAME NUMBER`: a definition of `-D`.
    Define,
    /// `freezing`: the project is to be frozen.
    Freezing,
    /// `load`: loads it; the lines below are how many units and groups it has, or why it is refused.
    Load,
    /// `units`: the lines below are its units in order, each with its group and its options.
    Units,
    /// `groups`: the lines below are its groups in order, each with its owner and the groups among its members.
    Groups,
    /// `finished`: the lines below are its groups in the order in which their loading ended.
    Finished,
    /// `source UNIT`: the lines below are the unit's source.
    Source,
}

/// The steps with their names.
const STEPS: [(&[u8], Step); 9] = [
    (b"files", Step::Files),
    (b"root", Step::Root),
    (b"define", Step::Define),
    (b"freezing", Step::Freezing),
    (b"load", Step::Load),
    (b"units", Step::Units),
    (b"groups", Step::Groups),
    (b"finished", Step::Finished),
    (b"source", Step::Source),
];

/// The step of this name.
fn step_of(name: &[u8]) -> Option<Step> {
    for (known, step) in STEPS {
        if known == name {
            return Some(step);
        }
    }
    None
}

/// The definition that the words of a section are.
fn definition_of(alloc: Global, section: &Section) -> Result<Def, CaseFault> {
    match section.words(alloc)?.as_slice() {
        [name, number] => match number_of(number.as_bytes()) {
            Some(value) => Ok(Def {
                name: name.copy()?,
                value: i64::from(value),
            }),
            None => Err(section.means_nothing()),
        },
        _ => Err(section.means_nothing()),
    }
}

/// How a loading ended that gave no project.
fn fault_lines(alloc: Global, fault: LoadFault) -> Result<Text, CaseFault> {
    match fault {
        LoadFault::Diag(diag) => Ok(refused_lines(alloc, &diag)?),
        LoadFault::Folder => Ok(Text::from_bytes(alloc, b"[folder fault]\n")?),
        LoadFault::Tool => Ok(Text::from_bytes(alloc, b"[tool fault]\n")?),
        LoadFault::NoMemory => Err(CaseFault::NoMemory),
    }
}

/// No project.
fn nothing(alloc: Global) -> Project {
    Project {
        units: List::new(alloc),
        groups: List::new(alloc),
        finished: List::new(alloc),
    }
}

impl ProjectCalls {
    /// An empty folder.
    pub fn new(alloc: Global) -> Result<ProjectCalls, NoMemory> {
        Ok(ProjectCalls {
            files: Files::new(alloc),
            defs: List::new(alloc),
            root: Text::from_bytes(alloc, b"main.cm")?,
            freezing: false,
            project: nothing(alloc),
        })
    }

    /// Loads the project, with an empty box of tools.
    fn loaded(&mut self, alloc: Global) -> Result<Project, LoadFault> {
        self.files.begin();
        let mut tools: Toolbox<BundledTool> = Toolbox::new(alloc);
        load(
            alloc,
            &mut self.files.folder,
            &mut tools,
            &self.defs,
            &self.root,
            self.freezing,
        )
    }

    /// Loads the project, and answers how that ended.
    fn load(&mut self, alloc: Global) -> Result<Text, CaseFault> {
        match self.loaded(alloc) {
            Ok(project) => {
                self.project = project;
                Ok(loaded_line(alloc, &self.project)?)
            }
            Err(fault) => fault_lines(alloc, fault),
        }
    }

    /// The source of a unit of the project.
    fn source(&self, section: &Section) -> Result<Text, CaseFault> {
        for unit in self.project.units.as_slice() {
            if unit.name.as_bytes() == section.words.as_bytes() {
                return match &unit.body {
                    UnitBody::Source { source, .. } => Ok(source.copy()?),
                    UnitBody::Frozen { .. } => Err(section.means_nothing()),
                };
            }
        }
        Err(section.means_nothing())
    }
}

impl Stage for ProjectCalls {
    fn take(&mut self, alloc: Global, section: &Section) -> Result<Option<Answer>, CaseFault> {
        if self.files.is_changed_by(section)? {
            return Ok(None);
        }
        let given = match step_of(section.name.as_bytes()) {
            Some(Step::Files) => {
                put_files(alloc, &mut self.files.folder, section)?;
                return Ok(None);
            }
            Some(Step::Root) => {
                self.root = lines_of(alloc, section)?;
                return Ok(None);
            }
            Some(Step::Define) => {
                self.defs.add(definition_of(alloc, section)?)?;
                return Ok(None);
            }
            Some(Step::Freezing) => {
                self.freezing = true;
                return Ok(None);
            }
            Some(Step::Load) => self.load(alloc)?,
            Some(Step::Units) => unit_lines(alloc, &self.project)?,
            Some(Step::Groups) => group_lines(alloc, &self.project)?,
            Some(Step::Finished) => finished_lines(alloc, &self.project)?,
            Some(Step::Source) => self.source(section)?,
            None => return Err(unknown(section)),
        };
        Ok(Some(Answer {
            wanted: section.bytes(alloc)?,
            given,
        }))
    }
}
