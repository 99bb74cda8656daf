//! Cases `derive`: tools are put into a box and used, over a folder in memory, by steps.

use bin_store::StoreFault;
use case_files::{Case, CaseFault, Part, Report, number_of, push_parts};
use case_texts::{Scene, line, push_diag, take_steps};
use case_tools::{CaseTool, tool_of};
use cm_base::{CallKind, FailAt, Left, List, MemFolder, NoMemory, Text, Tool};
use member_deriving::{MemberFault, derive_source, find_tool};
use std::alloc::Global;
use tool_deriving::Toolbox;
use tool_records::{get_record, tool_path};

/// A folder with a store, and a box of tools.
#[derive(Drop)]
pub struct DeriveScene {
    folder: MemFolder,
    tools: Toolbox<CaseTool>,
}

/// A word and a number as a line.
fn counted(alloc: Global, word: &[u8], number: u64) -> Result<Vec<u8>, NoMemory> {
    let mut out = Vec::new(alloc);
    let parts = [Part::Text(word), Part::Number(number), Part::Text(b"\n")];
    push_parts(alloc, &mut out, &parts)?;
    Ok(out)
}

/// The line of a use that gave no source. Want of memory is handed on.
fn fault_line(alloc: Global, fault: &MemberFault) -> Result<Vec<u8>, NoMemory> {
    match fault {
        MemberFault::Diag(diag) => {
            let mut out = Vec::new(alloc);
            push_diag(alloc, &mut out, diag)?;
            Ok(out)
        }
        MemberFault::Folder => line(alloc, b"folder fault"),
        MemberFault::Tool => line(alloc, b"tool fault"),
        MemberFault::NoMemory => Err(NoMemory),
    }
}

/// So many bytes 0.
fn zeros(alloc: Global, count: u32) -> Result<Text, NoMemory> {
    let mut bytes = Vec::new(alloc);
    for _ in 0..count {
        bytes.push(0)?;
    }
    Ok(Text::from_vec(bytes))
}

/// What a failed write leaves, by its word.
fn left_of(word: &[u8]) -> Option<Left> {
    match word {
        b"old" => Some(Left::Old),
        b"nothing" => Some(Left::Nothing),
        _ => Some(Left::Prefix(number_of(word)?)),
    }
}

impl DeriveScene {
    /// Lets the next call of a kind fail.
    fn fail(&mut self, alloc: Global, kind: CallKind, left: Left) -> Result<Vec<u8>, NoMemory> {
        let mut plan = List::new(alloc);
        plan.add(FailAt { kind, nth: 1, left })?;
        self.folder.fail(plan);
        line(alloc, b"ok")
    }

    /// Puts a tool into the box, and says what is handed back.
    fn register(&mut self, alloc: Global, tool: CaseTool) -> Result<Vec<u8>, NoMemory> {
        match self.tools.register(tool) {
            Ok(Some(old)) => counted(alloc, b"handed back, ran ", old.ran()),
            Ok(None) => line(alloc, b"new"),
            Err(_refused) => Err(NoMemory),
        }
    }

    /// Derives the source of a member of a class.
    fn derive(
        &mut self,
        alloc: Global,
        class: &Text,
        unit: &Text,
        input: &Text,
    ) -> Result<Vec<u8>, NoMemory> {
        let Some(at) = find_tool(&self.tools, class) else {
            return line(alloc, b"no tool");
        };
        match derive_source(alloc, &mut self.folder, &mut self.tools, at, unit, input) {
            Ok(text) => Ok(Vec::from_slice(alloc, text.as_bytes())?),
            Err(fault) => fault_line(alloc, &fault),
        }
    }

    /// Derives a source of so many bytes 0, and says how long it is.
    fn derive_zeros(
        &mut self,
        alloc: Global,
        class: &Text,
        unit: &Text,
        count: u32,
    ) -> Result<Vec<u8>, NoMemory> {
        let input = zeros(alloc, count)?;
        let answer = self.derive(alloc, class, unit, &input)?;
        if answer.len() < 100 {
            return Ok(answer);
        }
        counted(alloc, b"bytes ", answer.len() as u64)
    }

    /// How many bytes a unit's record has, and whether it is whole. Want of memory is handed on.
    fn record(&mut self, alloc: Global, unit: &Text) -> Result<Vec<u8>, NoMemory> {
        match get_record(alloc, &mut self.folder, unit) {
            Ok(Some(_run)) => {}
            Ok(None) => return line(alloc, b"none"),
            Err(StoreFault::Folder) => return line(alloc, b"folder fault"),
            Err(StoreFault::NoMemory) => return Err(NoMemory),
        }
        match self.folder.get(&tool_path(alloc, unit)?) {
            Some(file) => counted(alloc, b"bytes ", file.len() as u64),
            None => line(alloc, b"none"),
        }
    }

    /// Moves the record of a unit to the place of another.
    fn lay(&mut self, alloc: Global, unit: &Text, other: &Text) -> Result<Vec<u8>, NoMemory> {
        let Some(file) = self.folder.get(&tool_path(alloc, unit)?) else {
            return line(alloc, b"none");
        };
        let bytes = Text::from_bytes(alloc, file)?;
        self.folder
            .put(&tool_path(alloc, other)?, bytes.as_bytes())?;
        line(alloc, b"ok")
    }

    /// Cuts the record of a unit to so many bytes.
    fn cut(&mut self, alloc: Global, unit: &Text, count: u32) -> Result<Vec<u8>, NoMemory> {
        let path = tool_path(alloc, unit)?;
        let Some(file) = self.folder.get(&path) else {
            return line(alloc, b"none");
        };
        let mut bytes = Vec::from_slice(alloc, file)?;
        bytes.truncate(count as usize);
        self.folder.put(&path, bytes.as_slice())?;
        line(alloc, b"ok")
    }

    /// Changes a byte of the record of a unit.
    fn spoil(&mut self, alloc: Global, unit: &Text, at: u32) -> Result<Vec<u8>, NoMemory> {
        let path = tool_path(alloc, unit)?;
        let Some(file) = self.folder.get(&path) else {
            return line(alloc, b"none");
        };
        let mut bytes = Vec::from_slice(alloc, file)?;
        if at as usize >= bytes.len() {
            return line(alloc, b"none");
        }
        bytes[at as usize] ^= 1;
        self.folder.put(&path, bytes.as_slice())?;
        line(alloc, b"ok")
    }

    /// Adds a byte to the record of a unit.
    fn lengthen(&mut self, alloc: Global, unit: &Text) -> Result<Vec<u8>, NoMemory> {
        let path = tool_path(alloc, unit)?;
        let Some(file) = self.folder.get(&path) else {
            return line(alloc, b"none");
        };
        let mut bytes = Vec::from_slice(alloc, file)?;
        bytes.push(0)?;
        self.folder.put(&path, bytes.as_slice())?;
        line(alloc, b"ok")
    }

    /// Takes a step with a tool: it is put into the box.
    fn step_tool(
        &mut self,
        alloc: Global,
        class: &[u8],
        given: &Text,
        failing: u64,
    ) -> Result<Option<Vec<u8>>, NoMemory> {
        match tool_of(alloc, class, given, failing)? {
            Some(tool) => Ok(Some(self.register(alloc, tool)?)),
            None => Ok(None),
        }
    }

    /// Takes a step with one word.
    fn step_on(
        &mut self,
        alloc: Global,
        step: &[u8],
        word: &Text,
    ) -> Result<Option<Vec<u8>>, NoMemory> {
        match (step, left_of(word.as_bytes())) {
            (b"record", _) => Ok(Some(self.record(alloc, word)?)),
            (b"lengthen", _) => Ok(Some(self.lengthen(alloc, word)?)),
            (b"fail-write", Some(left)) => Ok(Some(self.fail(alloc, CallKind::Write, left)?)),
            _ => Ok(None),
        }
    }

    /// Takes a step with two words.
    fn step_with(
        &mut self,
        alloc: Global,
        step: &[u8],
        first: &Text,
        second: &Text,
    ) -> Result<Option<Vec<u8>>, NoMemory> {
        match (step, number_of(second.as_bytes())) {
            (b"lay", _) => Ok(Some(self.lay(alloc, first, second)?)),
            (b"cut", Some(count)) => Ok(Some(self.cut(alloc, first, count)?)),
            (b"spoil", Some(at)) => Ok(Some(self.spoil(alloc, first, at)?)),
            (b"register", _) => self.step_tool(alloc, first.as_bytes(), second, 0),
            _ => Ok(None),
        }
    }
}

impl DeriveScene {
    /// Takes a step with three words.
    fn step_of(
        &mut self,
        alloc: Global,
        step: &[u8],
        class: &Text,
        first: &Text,
        second: &Text,
    ) -> Result<Option<Vec<u8>>, NoMemory> {
        match (step, number_of(second.as_bytes())) {
            (b"derive", _) => Ok(Some(self.derive(alloc, class, first, second)?)),
            (b"zeros", Some(count)) => Ok(Some(self.derive_zeros(alloc, class, first, count)?)),
            (b"failing", Some(nth)) => {
                self.step_tool(alloc, class.as_bytes(), first, nth as u64)
            }
            _ => Ok(None),
        }
    }
}

impl Scene for DeriveScene {
    fn answer(
        &mut self,
        alloc: Global,
        step: &[u8],
        words: &[Text],
    ) -> Result<Option<Vec<u8>>, NoMemory> {
        match (step, words) {
            (b"fail-read", []) => Ok(Some(self.fail(alloc, CallKind::Read, Left::Old)?)),
            (b"writes", []) => {
                let count = self.folder.writes().len();
                Ok(Some(counted(alloc, b"writes ", count as u64)?))
            }
            (_, [word]) => self.step_on(alloc, step, word),
            (_, [first, second]) => self.step_with(alloc, step, first, second),
            (_, [class, first, second]) => self.step_of(alloc, step, class, first, second),
            _ => Ok(None),
        }
    }
}

/// Takes the steps of uses over an empty folder, with an empty box.
pub fn try_derive(alloc: Global, case: &Case, report: &mut Report) -> Result<(), CaseFault> {
    let mut scene = DeriveScene {
        folder: MemFolder::new(alloc),
        tools: Toolbox::new(alloc),
    };
    take_steps(alloc, &mut scene, case, report)
}
