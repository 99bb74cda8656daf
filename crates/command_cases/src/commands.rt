//! Commands over a folder and an output in memory, with a box of tools.

use crate::player::Player;
use case_commands::{run_with, status_word};
use case_files::{CaseFault, Part, Section, number_of, push_parts};
use case_scenes::{Answer, Files, Stage, counted, look_at, look_of, unknown};
use case_tools::{CaseTool, tool_of};
use cm_base::{Compiler, List, MemSink, NoMemory, SureFolder, SureSink, Text, Tool};
use cm_top::Status;
use member_tools::Toolbox;
use std::alloc::Global;
use std::mem;

/// A folder, a box of tools, what the last command asked its compiler, and what is planned for the next.
#[derive(Drop)]
pub struct Commands<C> {
    files: Files,
    failing_puts: List<u32>,
    tools: Toolbox<CaseTool>,
    compiler: C,
}

/// A section of commands that is neither a change nor a look.
#[derive(Clone, Copy)]
enum Step {
    /// `tool CLASS [GIVEN]`: puts a tool into the box; the line below is `[new]`, or how often the one ran that comes
    /// back.
    Tool,
    /// `failing CLASS NTH`: the same of a tool without a head or value name whose run of this number fails.
    Failing,
    /// `ran CLASS`: how often the tool of the class ran.
    Ran,
    /// `close`: drops all tools; the box is empty then.
    Close,
    /// `fail-put NTH`: the NTH piece that the next command prints isn't taken whole.
    FailPut,
    /// `cm WORDS`: the command; the lines below are what it prints, and how it ends where it doesn't end well.
    Command,
    /// `sure WORDS`: the same over a folder and an output that never fail.
    Sure,
}

/// The steps with their names.
const STEPS: [(&[u8], Step); 7] = [
    (b"tool", Step::Tool),
    (b"failing", Step::Failing),
    (b"ran", Step::Ran),
    (b"close", Step::Close),
    (b"fail-put", Step::FailPut),
    (b"cm", Step::Command),
    (b"sure", Step::Sure),
];

/// The step of this name.
fn step_of(name: &[u8]) -> Option<Step> {
    for (known, step) in STEPS {
        if known == name {
            return Some(step);
        }
    }
    None
}

/// A word as a program is given it.
fn string_of(alloc: Global, section: &Section, word: &Text) -> Result<String, CaseFault> {
    match String::from_utf8(Vec::from_slice(alloc, word.as_bytes())?) {
        Ok(string) => Ok(string),
        Err(_) => Err(section.means_nothing()),
    }
}

/// The words of a section as a program is given them.
fn strings_of(alloc: Global, section: &Section) -> Result<Vec<String>, CaseFault> {
    let mut strings = Vec::new(alloc);
    for word in section.words(alloc)?.as_slice() {
        strings.push(string_of(alloc, section, word)?)?;
    }
    Ok(strings)
}

/// What a command printed, and a line with how it ended where it didn't end well. Want of memory is handed on.
fn printed(alloc: Global, bytes: &[u8], status: Status) -> Result<Text, NoMemory> {
    let mut all = Vec::from_slice(alloc, bytes)?;
    if status == Status::NoMemory {
        return Err(NoMemory);
    }
    if status != Status::Ok {
        let end = [
            Part::Text(b"["),
            Part::Text(status_word(status)),
            Part::Text(b"]\n"),
        ];
        push_parts(alloc, &mut all, &end)?;
    }
    Ok(Text::from_vec(all))
}

/// How often the tool ran that comes back.
fn ran_line(alloc: Global, ran: u64) -> Result<Text, NoMemory> {
    let mut line = Vec::new(alloc);
    let parts = [Part::Text(b"[ran "), Part::Number(ran), Part::Text(b"]\n")];
    push_parts(alloc, &mut line, &parts)?;
    Ok(Text::from_vec(line))
}

impl<C: Compiler + Player + Drop> Commands<C> {
    /// An empty folder and an empty box.
    pub fn new(alloc: Global) -> Result<Commands<C>, NoMemory> {
        Ok(Commands {
            files: Files::new(alloc),
            failing_puts: List::new(alloc),
            tools: Toolbox::new(alloc),
            compiler: C::begin(alloc)?,
        })
    }

    /// Plans a failing put of the output.
    fn plan_failing_put(&mut self, section: &Section) -> Result<(), CaseFault> {
        let nth = counted(section, section.words.as_bytes())?;
        Ok(self.failing_puts.add(nth)?)
    }

    /// Puts a tool into the box. The one of its class comes back, if there is one.
    fn exchange(&mut self, tool: CaseTool) -> Result<Option<CaseTool>, NoMemory> {
        match self.tools.register(tool) {
            Ok(old) => Ok(old),
            Err(_refused) => Err(NoMemory),
        }
    }

    /// Puts a tool into the box, and tells of the one that comes back.
    fn register(&mut self, alloc: Global, tool: CaseTool) -> Result<Text, NoMemory> {
        match self.exchange(tool)? {
            Some(old) => ran_line(alloc, old.ran()),
            None => Text::from_bytes(alloc, b"[new]\n"),
        }
    }

    /// Takes a step with a tool, which is given something, or of which one run fails.
    fn take_tool(
        &mut self,
        alloc: Global,
        section: &Section,
        is_failing: bool,
    ) -> Result<Text, CaseFault> {
        let words = section.words(alloc)?;
        let (class, word) = match words.as_slice() {
            [class] => (class.copy()?, Text::from_bytes(alloc, b"")?),
            [class, word] => (class.copy()?, word.copy()?),
            _ => return Err(section.means_nothing()),
        };
        let tool = if is_failing {
            let nth = number_of(word.as_bytes()).unwrap_or(0);
            tool_of(
                alloc,
                class.as_bytes(),
                &Text::from_bytes(alloc, b"")?,
                nth as u64,
            )?
        } else {
            tool_of(alloc, class.as_bytes(), &word, 0)?
        };
        match tool {
            Some(tool) => Ok(self.register(alloc, tool)?),
            None => Err(section.means_nothing()),
        }
    }

    /// How often the tool of a class ran: another takes its place for as long as it is asked.
    fn ran_of(&mut self, alloc: Global, section: &Section) -> Result<Text, CaseFault> {
        let none = Text::from_bytes(alloc, b"")?;
        let Some(other) = tool_of(alloc, section.words.as_bytes(), &none, 0)? else {
            return Err(section.means_nothing());
        };
        let Some(tool) = self.exchange(other)? else {
            return Err(section.means_nothing());
        };
        let line = ran_line(alloc, tool.ran())?;
        let _other = self.exchange(tool)?;
        Ok(line)
    }

    /// Runs a command with the failures that are planned, and answers what is printed.
    fn run_planned(&mut self, alloc: Global, words: &[String]) -> Result<Text, NoMemory> {
        let mut out = MemSink::new(alloc);
        out.fail(mem::replace(&mut self.failing_puts, List::new(alloc)));
        self.files.begin();
        self.compiler = C::begin(alloc)?;
        let folder = &mut self.files.folder;
        let status = run_with(
            alloc,
            words,
            folder,
            &mut out,
            &mut self.compiler,
            &mut self.tools,
        );
        printed(alloc, out.bytes(), status)
    }

    /// Runs a command over a folder and an output that never fail, and answers what is printed.
    fn run_sure(&mut self, alloc: Global, words: &[String]) -> Result<Text, NoMemory> {
        let mut out = SureSink::new(alloc);
        self.files.begin();
        self.compiler = C::begin(alloc)?;
        let folder: &mut SureFolder = &mut self.files.folder.files;
        let status = run_with(
            alloc,
            words,
            folder,
            &mut out,
            &mut self.compiler,
            &mut self.tools,
        );
        printed(alloc, out.bytes(), status)
    }

    /// Takes a step; a command and a tool have an answer.
    fn take_step(
        &mut self,
        alloc: Global,
        step: Step,
        section: &Section,
    ) -> Result<Option<Text>, CaseFault> {
        match step {
            Step::Tool => return Ok(Some(self.take_tool(alloc, section, false)?)),
            Step::Failing => return Ok(Some(self.take_tool(alloc, section, true)?)),
            Step::Ran => return Ok(Some(self.ran_of(alloc, section)?)),
            Step::Close => mem::replace(&mut self.tools, Toolbox::new(alloc)).close(),
            Step::FailPut => self.plan_failing_put(section)?,
            Step::Command => {
                let words = strings_of(alloc, section)?;
                return Ok(Some(self.run_planned(alloc, words.as_slice())?));
            }
            Step::Sure => {
                let words = strings_of(alloc, section)?;
                return Ok(Some(self.run_sure(alloc, words.as_slice())?));
            }
        }
        Ok(None)
    }
}

impl<C: Compiler + Player + Drop> Stage for Commands<C> {
    fn take(&mut self, alloc: Global, section: &Section) -> Result<Option<Answer>, CaseFault> {
        if self.files.is_changed_by(section)? {
            return Ok(None);
        }
        if let Some(look) = look_of(section.name.as_bytes()) {
            let answer = look_at(alloc, look, section, &self.files, self.compiler.asked_of())?;
            return Ok(Some(answer));
        }
        let Some(step) = step_of(section.name.as_bytes()) else {
            return Err(unknown(section));
        };
        match self.take_step(alloc, step, section)? {
            Some(given) => Ok(Some(Answer {
                wanted: section.bytes(alloc)?,
                given,
            })),
            None => Ok(None),
        }
    }
}
