//! The tools of a case, by their classes.

use cm_base::{NoMemory, Text};
use member_tools::{BundledTool, Embed, Literate, Prelude};
use std::alloc::Global;

/// The tool of a class, with what it is given: the value's name of `embed`, the head of `prelude`.
pub fn tool_of(alloc: Global, class: &[u8], given: &[u8]) -> Result<Option<BundledTool>, NoMemory> {
    if given.len() > 1_048_576 {
        return Ok(None);
    }
    let text = Text::from_bytes(alloc, given)?;
    match class {
        b"embed" => Ok(Some(BundledTool::Embed(Embed::new(alloc, text)?))),
        b"literate" => Ok(Some(BundledTool::Literate(Literate::new(alloc)?))),
        b"prelude" => Ok(Some(BundledTool::Prelude(Prelude::new(alloc, text)?))),
        _ => Ok(None),
    }
}
