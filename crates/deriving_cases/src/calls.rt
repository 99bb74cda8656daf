//! Loading from a folder in memory with a box of the program's tools.

use crate::shown::{fault_line, nothing, source_of, unit_lines};
use crate::tools::tool_of;
use case_files::{CaseFault, Section, number_of};
use case_scenes::{Answer, Asked, Files, Stage, look_at, look_of, unknown};
use cm_base::{Def, List, NoMemory, Text, Tool};
use cm_description::Project;
use group_loader::load;
use member_tools::{BundledTool, Toolbox};
use std::alloc::Global;

/// A folder, a box of tools, and the project that was loaded last.
#[derive(Drop)]
pub struct DerivingCalls {
    files: Files,
    tools: Toolbox<BundledTool>,
    defs: List<Def>,
    project: Project,
    asked: List<Text>,
}

/// A section of these cases that is no change of the folder and no look at it.
#[derive(Clone, Copy)]
enum Step {
    /// `tool CLASS [GIVEN]`: puts a tool into the box; the line below is `[new]`, or how often the one ran that comes
    /// back.
    Tool,
    /// `define NAME NUMBER`: a definition of `-D`.
    Define,
    /// `load`: loads `main.cm`; the lines below are its units with the sizes of their sources, or why it is refused.
    Load,
    /// `source UNIT`: the lines below are the unit's source.
    Source,
}

/// The step of this name.
fn step_of(name: &[u8]) -> Option<Step> {
    match name {
        b"tool" => Some(Step::Tool),
        b"define" => Some(Step::Define),
        b"load" => Some(Step::Load),
        b"source" => Some(Step::Source),
        _ => None,
    }
}

/// A tool's class and what it is given.
fn words_of<'a>(words: &'a [Text]) -> Option<(&'a Text, &'a [u8])> {
    match words {
        [class] => Some((class, b"")),
        [class, given] => Some((class, given.as_bytes())),
        _ => None,
    }
}

impl DerivingCalls {
    /// An empty folder and an empty box.
    pub fn new(alloc: Global) -> Result<DerivingCalls, NoMemory> {
        Ok(DerivingCalls {
            files: Files::new(alloc),
            tools: Toolbox::new(alloc),
            defs: List::new(alloc),
            project: nothing(alloc),
            asked: List::new(alloc),
        })
    }

    /// Puts a tool into the box, and tells of the one that comes back.
    fn register(&mut self, alloc: Global, tool: BundledTool) -> Result<Text, NoMemory> {
        let text = match self.tools.register(tool) {
            Ok(Some(old)) => match old.ran() {
                0 => b"[ran 0]\n".as_slice(),
                1 => b"[ran 1]\n",
                2 => b"[ran 2]\n",
                3 => b"[ran 3]\n",
                4 => b"[ran 4]\n",
                _ => b"[ran more]\n",
            },
            Ok(None) => b"[new]\n",
            Err(_refused) => return Err(NoMemory),
        };
        Text::from_bytes(alloc, text)
    }

    /// Takes a step with a tool.
    fn take_tool(&mut self, alloc: Global, section: &Section) -> Result<Text, CaseFault> {
        let words = section.words(alloc)?;
        let Some((class, given)) = words_of(words.as_slice()) else {
            return Err(section.means_nothing());
        };
        match tool_of(alloc, class.as_bytes(), given)? {
            Some(tool) => Ok(self.register(alloc, tool)?),
            None => Err(section.means_nothing()),
        }
    }

    /// Takes a definition.
    fn define(&mut self, alloc: Global, section: &Section) -> Result<(), CaseFault> {
        match section.words(alloc)?.as_slice() {
            [name, number] => match number_of(number.as_bytes()) {
                Some(value) => Ok(
                    self.defs.add(Def {
                        name: name.copy()?,
                        value: i64::from(value),
                    })?,
                ),
                None => Err(section.means_nothing()),
            },
            _ => Err(section.means_nothing()),
        }
    }

    /// Loads the project, and answers how that ended.
    fn load(&mut self, alloc: Global) -> Result<Text, CaseFault> {
        self.files.begin();
        let root = Text::from_bytes(alloc, b"main.cm")?;
        let folder = &mut self.files.folder;
        match load(alloc, folder, &mut self.tools, &self.defs, &root, false) {
            Ok(project) => {
                self.project = project;
                Ok(unit_lines(alloc, &self.project)?)
            }
            Err(fault) => fault_line(alloc, fault),
        }
    }

    /// Takes a step that looks at the folder.
    fn look(&self, alloc: Global, section: &Section) -> Result<Option<Answer>, CaseFault> {
        let Some(look) = look_of(section.name.as_bytes()) else {
            return Err(unknown(section));
        };
        let asked = Asked {
            units: &self.asked,
            skeletons: &self.asked,
        };
        Ok(Some(look_at(alloc, look, section, &self.files, asked)?))
    }
}

impl Stage for DerivingCalls {
    fn take(&mut self, alloc: Global, section: &Section) -> Result<Option<Answer>, CaseFault> {
        if self.files.is_changed_by(section)? {
            return Ok(None);
        }
        let given = match step_of(section.name.as_bytes()) {
            Some(Step::Tool) => self.take_tool(alloc, section)?,
            Some(Step::Define) => {
                self.define(alloc, section)?;
                return Ok(None);
            }
            Some(Step::Load) => self.load(alloc)?,
            Some(Step::Source) => match source_of(&self.project, section.words.as_bytes())? {
                Some(source) => source,
                None => return Err(section.means_nothing()),
            },
            None => return self.look(alloc, section),
        };
        Ok(Some(Answer {
            wanted: section.bytes(alloc)?,
            given,
        }))
    }
}
