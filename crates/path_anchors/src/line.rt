//! A line of a pathconfig: an anchor, blanks, and a directory.

ghost use Rattle.std.specs.Prelude.{◌≡◌, ◌<◌, ◌≤◌, ◌^◌, ◌-◌, ◌+◌, IfOk, IfSome, None, length, take, drop};
ghost use Rattle.std.specs.List.{list_any, list_all, position, position_or_len};
ghost use Rattle.path_anchors.specs.Names.{parts_of, is_up};
ghost use Rattle.path_anchors.specs.Pathconfig.{is_blank, is_comment, is_word_byte, is_all_blank, is_skipped, is_word, has_form, first_word, second_word, has_slash, has_blank, has_up, directory_parts, bound_line};

use crate::fault::PathFault;
use crate::parts::{is_up, parts_of, passes_limit, walk};
use cm_base::{List, NoMemory, Text};
use std::alloc::Global;

/// What a line binds: an anchor, and a directory by its components. `written` is the directory as it stands in the
/// line, at the column `col`.
#[derive(Debug, Drop)]
pub struct BoundLine {
    pub anchor: Text,
    pub written: Text,
    pub col: u32,
    pub directory: List<Text>,
}

/// Whether a byte is a space or a tab.
fn is_blank(byte: u8) -> bool
    ensures { result ≡ is_blank byte }
{
    byte == b' ' || byte == b'\t'
}

/// Whether a line begins with `#`.
fn is_comment(line: &[u8]) -> bool
    ensures { result ≡ is_comment line.now }
{
    match line {
        [b'#', ..] => true,
        _ => false,
    }
}

/// Whether a line has nothing but blanks.
fn is_all_blank(line: &[u8]) -> bool
    ensures { result ≡ is_all_blank line.now }
{
    line.iter().all(|byte| is_blank(*byte))
}

/// Whether a line binds nothing: it begins with `#`, or is blank.
pub fn is_skipped(line: &[u8]) -> bool
    ensures { result ≡ is_skipped line.now }
{
    is_comment(line) || is_all_blank(line)
}

/// The place of the first blank.
fn first_blank(line: &[u8]) -> Option<usize>
    ensures { result ≡ position is_blank line.now }
{
    line.iter().position(|byte| is_blank(*byte))
}

/// The place of the first byte that is no blank.
fn first_letter(line: &[u8]) -> Option<usize>
    ensures { result ≡ position is_word_byte line.now }
{
    line.iter().position(|byte| !is_blank(*byte))
}

/// The length of the run of letters at the front.
#[tactic(auto, using(crate::proofs::Runs::runs))]
fn word_len(line: &[u8]) -> usize
    ensures run { result ≡ position_or_len is_blank line.now }
    ensures within { result ≤ length line.now }
{
    first_blank(line).unwrap_or(line.len())
}

/// The length of the run of blanks at the front.
#[tactic(auto, using(crate::proofs::Runs::runs))]
fn gap_len(line: &[u8]) -> usize
    ensures run { result ≡ position_or_len is_word_byte line.now }
    ensures within { result ≤ length line.now }
{
    first_letter(line).unwrap_or(line.len())
}

/// Whether a component is `..`.
fn has_up(parts: &[Text]) -> bool
    ensures { result ≡ has_up parts.now }
{
    parts.iter().any(|part| is_up(part.as_bytes()))
}

/// The components of a directory as it is written; none where it has `..`, where nothing is left of it, or where
/// it passes the limit of a path.
fn directory_parts(alloc: Global, written: &[u8]) -> Result<Option<List<Text>>, NoMemory>
    ensures { IfOk result (λ parts. parts ≡ directory_parts written.now) }
{
    let parts = parts_of(alloc, written)?;
    if passes_limit(written) || has_up(parts.as_slice()) {
        return Ok(None);
    }
    let mut here = List::new(alloc);
    match walk(&mut here, parts.as_slice()) {
        Ok(()) => {}
        Err(PathFault::Number(_)) => return Ok(None),
        Err(PathFault::NoMemory) => return Err(NoMemory),
    }
    if here.is_empty() {
        return Ok(None);
    }
    Ok(Some(here))
}

/// What stands before the first blank of a line.
fn first_word(line: &[u8]) -> &[u8]
    ensures { result.now ≡ first_word line.now }
{
    &line[..word_len(line)]
}

/// What stands after the blanks there.
fn second_word(line: &[u8]) -> &[u8]
    ensures word { result.now ≡ second_word line.now }
    ensures within { length result.now ≤ length line.now }
{
    let after = &line[word_len(line)..];
    &after[gap_len(after)..]
}

/// Whether a blank stands in a word.
fn has_blank(word: &[u8]) -> bool
    ensures { result ≡ has_blank word.now }
{
    word.iter().any(|byte| is_blank(*byte))
}

/// Whether a slash stands in a word.
fn has_slash(word: &[u8]) -> bool
    ensures { result ≡ has_slash word.now }
{
    word.iter().any(|byte| *byte == b'/')
}

/// Whether a word is there, and no blank in it.
fn is_word(word: &[u8]) -> bool
    ensures { result ≡ is_word word.now }
{
    !word.is_empty() && !has_blank(word)
}

/// Whether a line is an anchor, blanks, and a directory.
fn has_form(line: &[u8]) -> bool
    ensures { result ≡ has_form line.now }
{
    let anchor = first_word(line);
    is_word(anchor) && !has_slash(anchor) && is_word(second_word(line))
}

/// What a line binds, and `None` for a line of another form.
pub fn read_line(alloc: Global, line: &[u8]) -> Result<Option<BoundLine>, NoMemory>
    requires { length line.now < 2 ^ 32 }
    ensures { IfOk result (λ bound. bound ≡ bound_line line.now) }
{
    if !has_form(line) {
        return Ok(None);
    }
    let written = second_word(line);
    let Some(directory) = directory_parts(alloc, written)? else {
        return Ok(None);
    };
    let before = line.len() - written.len();
    Ok(Some(BoundLine {
        anchor: Text::from_bytes(alloc, first_word(line))?,
        written: Text::from_bytes(alloc, written)?,
        col: before as u32 + 1,
        directory,
    }))
}
