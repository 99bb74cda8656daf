//! The content of a file in a script: lines with a bar.

ghost use Rattle.std.specs.Prelude.{◌≡◌, ◌∷◌, ◌<◌, ◌^◌, false, IfOk, MatchOption, length};
ghost use Rattle.session_scripts.specs.Parts.{IsContent};
ghost use Rattle.session_scripts.specs.Scripts.{has_bar};

use crate::text::{front_line, later_text};
use cm_base::{NoMemory, Text};
use std::alloc::Global;

/// The content at the front of a text, the number of its lines, and what follows them.
#[derive(Drop)]
pub struct Content<'a> {
    pub bytes: Text,
    pub lines: u32,
    pub rest: &'a [u8],
}

/// What stands behind a bar at the front of a text, if one is there.
fn after_bar(text: &[u8]) -> Option<&[u8]>
    ensures { MatchOption result (has_bar text.now ≡ false) (λ after. text.now ≡ 124 ∷ after.now) }
{
    match text {
        [b'|', after @ ..] => Some(after),
        _ => None,
    }
}

/// Reads the lines of content at the front of a text.
pub fn read_content(alloc: Global, text: &[u8]) -> Result<Content<'_>, NoMemory>
    requires { length text.now < 2 ^ 32 }
    ensures { IfOk result (λ content. IsContent text.now content.bytes content.lines content.rest.now) }
{
    let mut bytes = Vec::new(alloc);
    let mut lines = 0u32;
    let mut rest = text;
    while let Some(after) = after_bar(rest) {
        bytes.extend_from_slice(front_line(after))?;
        bytes.push(b'\n')?;
        lines += 1;
        rest = later_text(after);
    }
    Ok(Content {
        bytes: Text::from_vec(bytes),
        lines,
        rest,
    })
}
