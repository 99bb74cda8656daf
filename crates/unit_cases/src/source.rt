//! The sources of cases.

use case_files::{Case, CaseFault, Part, push_parts};
use case_texts::expanded;
use cm_base::Text;
use std::alloc::Global;

/// A text behind the lines that stand before each text of its case.
pub fn source_of(alloc: Global, case: &Case, text: &Text) -> Result<Text, CaseFault> {
    let mut out = Vec::new(alloc);
    if let Some(section) = case.find(b"before")? {
        let before = expanded(alloc, section.line, section.bytes(alloc)?.as_bytes())?;
        push_parts(alloc, &mut out, &[Part::Text(before.as_bytes())])?;
    }
    push_parts(alloc, &mut out, &[Part::Text(text.as_bytes())])?;
    Ok(Text::from_vec(out))
}
