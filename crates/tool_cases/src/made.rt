//! What each tool makes of a text.

use crate::kind::MadeKind;
use bundled_tools::{Embed, Literate, Prelude};
use case_files::{Case, CaseFault};
use case_texts::{Answers, line};
use cm_base::{NoMemory, Text, Tool, ToolFault};
use std::alloc::Global;
use tool_records::tool_path;

/// What a run made, in bytes. None of the three tools fails, so a fault is want of memory.
fn bytes_of(alloc: Global, made: Result<Text, ToolFault>) -> Result<Vec<u8>, NoMemory> {
    match made {
        Ok(text) => Ok(Vec::from_slice(alloc, text.as_bytes())?),
        Err(ToolFault::Failed) => line(alloc, b"tool fault"),
        Err(ToolFault::NoMemory) => Err(NoMemory),
    }
}

/// An input as `Embed` makes a source of it.
fn embedded(alloc: Global, value: &[u8], unit: &Text, input: &Text) -> Result<Vec<u8>, NoMemory> {
    if value.len() > 1_048_576 {
        return line(alloc, b"too long");
    }
    let mut tool = Embed::new(alloc, Text::from_bytes(alloc, value)?)?;
    let made = tool.make(alloc, unit, input);
    bytes_of(alloc, made)
}

/// An input as `Literate` makes a source of it.
fn code(alloc: Global, unit: &Text, input: &Text) -> Result<Vec<u8>, NoMemory> {
    let mut tool = Literate::new(alloc)?;
    let made = tool.make(alloc, unit, input);
    bytes_of(alloc, made)
}

/// An input as `Prelude` makes a source of it.
fn headed(alloc: Global, unit: &Text, input: &Text) -> Result<Vec<u8>, NoMemory> {
    let mut tool = Prelude::new(alloc, Text::from_bytes(alloc, b"(* head *)\n")?)?;
    let made = tool.make(alloc, unit, input);
    bytes_of(alloc, made)
}

impl Answers for MadeKind {
    fn answer(&self, alloc: Global, _case: &Case, text: &Text) -> Result<Vec<u8>, CaseFault> {
        let unit = Text::from_bytes(alloc, b"t.txt")?;
        let empty = Text::from_bytes(alloc, b"")?;
        let made = match *self {
            MadeKind::Embedded => embedded(alloc, b"text", &unit, text)?,
            MadeKind::Module => embedded(alloc, b"v", text, &empty)?,
            MadeKind::Literate => code(alloc, &unit, text)?,
            MadeKind::Prelude => headed(alloc, &unit, text)?,
            MadeKind::RecordPath => line(alloc, tool_path(alloc, text)?.as_bytes())?,
        };
        Ok(made)
    }
}
