//! Tools by the words of a step.

use crate::tool::CaseTool;
use bundled_tools::{BundledTool, Embed, Literate, Prelude};
use cm_base::{NoMemory, Text};
use std::alloc::Global;

/// The tool of a word, with what it is given. Tools of the classes of sources and descriptions are preludes.
fn bundled(alloc: Global, word: &[u8], given: &Text) -> Result<Option<BundledTool>, NoMemory> {
    if given.as_bytes().len() > 1_048_576 {
        return Ok(None);
    }
    match word {
        b"embed" => Ok(Some(BundledTool::Embed(Embed::new(alloc, given.copy()?)?))),
        b"literate" => Ok(Some(BundledTool::Literate(Literate::new(alloc)?))),
        b"prelude" | b"sml" | b"cm" => Ok(Some(BundledTool::Prelude(Prelude::new(
            alloc,
            given.copy()?,
        )?))),
        _ => Ok(None),
    }
}

/// A tool of a class whose run of a number fails.
pub fn tool_of(
    alloc: Global,
    word: &[u8],
    given: &Text,
    failing: u64,
) -> Result<Option<CaseTool>, NoMemory> {
    if word.len() > 1_048_576 {
        return Ok(None);
    }
    match bundled(alloc, word, given)? {
        Some(tool) => Ok(Some(CaseTool {
            tool,
            class: Text::from_bytes(alloc, word)?,
            failing,
            ran: 0,
            faults: 0,
        })),
        None => Ok(None),
    }
}
