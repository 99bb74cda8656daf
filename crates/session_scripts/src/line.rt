//! What a line of a script says by itself.

ghost use Rattle.std.specs.Prelude.{◌≡◌, IfOk};
ghost use Rattle.std.specs.List.{list_all};
ghost use Rattle.std.specs.Option.{option_copied};
ghost use Rattle.cm_base.specs.ByteClasses.{between};
ghost use Rattle.cm_base.specs.Calls.{Gives};
ghost use Rattle.path_anchors.specs.Pathconfig.{is_blank, is_comment, is_all_blank, is_skipped};
ghost use Rattle.session_scripts.specs.Scripts.{behind, words_of, is_word, is_session_word, begins_session, are_command, file_line, remove_line, command_line, said, line_of};

use crate::refusal::{bad_line, edited_path};
use cm_base::{Fault, List, NoMemory, Text};
use std::alloc::Global;

/// What a line says that is no content.
#[derive(Debug, Drop)]
pub enum Line {
    /// A comment, or a blank line.
    Nothing,
    /// A file at this path of the folder is written.
    File(Text),
    /// The file at this path of the folder is removed.
    Remove(Text),
    /// The command of these words is done.
    Command(List<Text>),
}

/// Whether a byte is a space or a tab.
fn is_blank(byte: u8) -> bool
    ensures { result ≡ is_blank byte }
{
    byte == b' ' || byte == b'\t'
}

/// Whether a line begins with `#`.
fn is_comment(text: &[u8]) -> bool
    ensures { result ≡ is_comment text.now }
{
    match text {
        [b'#', ..] => true,
        _ => false,
    }
}

/// Whether a line has nothing but blanks.
fn is_all_blank(text: &[u8]) -> bool
    ensures { result ≡ is_all_blank text.now }
{
    text.iter().all(|byte| is_blank(*byte))
}

/// Whether a line says nothing: it begins with `#`, or is blank.
fn is_skipped(text: &[u8]) -> bool
    ensures { result ≡ is_skipped text.now }
{
    is_comment(text) || is_all_blank(text)
}

/// What stands behind a front of a line, where the line begins with it.
fn behind<'a>(front: &[u8], text: &'a [u8]) -> Option<&'a [u8]>
    ensures { option_copied result ≡ behind front.now text.now }
{
    text.strip_prefix(front)
}

/// Whether a byte can be seen: it is one from `!` to `~`.
fn is_seen(byte: u8) -> bool
    ensures { result ≡ between 33 126 byte }
{
    matches!(byte, b'!'..=b'~')
}

/// Whether each byte can be seen.
fn are_seen(word: &[u8]) -> bool
    ensures { result ≡ list_all (between 33 126) word.now }
{
    word.iter().all(|byte| is_seen(*byte))
}

/// Whether a text is a word: it has a byte, and each can be seen.
fn is_word(word: &[u8]) -> bool
    ensures { result ≡ is_word word.now }
{
    !word.is_empty() && are_seen(word)
}

/// Whether each text is a word.
fn are_words(words: &[Text]) -> bool
    ensures { result ≡ list_all is_word words.now }
{
    words.iter().all(|word| is_word(word.as_bytes()))
}

/// Whether a word is `session`.
#[tactic(auto, unfolding(crate::specs::Scripts::is_session_word))]
fn is_session_word(word: &[u8]) -> bool
    ensures { result ≡ is_session_word word.now }
{
    word == b"session".as_slice()
}

/// Whether words begin a session.
fn begins_session(words: &[Text]) -> bool
    ensures { result ≡ begins_session words.now }
{
    match words {
        [first, ..] => is_session_word(first.as_bytes()),
        [] => false,
    }
}

/// Whether words may stand in a script as a command.
fn are_command(words: &[Text]) -> bool
    ensures { result ≡ are_command words.now }
{
    are_words(words) && !begins_session(words)
}

/// The words between the spaces of a text.
fn words_of(alloc: Global, text: &[u8]) -> Result<List<Text>, NoMemory>
    ensures { IfOk result (λ words. words ≡ words_of text.now) }
{
    let mut words = List::new(alloc);
    for word in text.split(|byte| *byte == b' ') {
        words.add(Text::from_bytes(alloc, word)?)?;
    }
    Ok(words)
}

/// What a line says that writes a file.
fn file_line(alloc: Global, file: &Text, number: u32, written: &[u8]) -> Result<Line, Fault>
    ensures { Gives result (file_line file.now number written.now) }
{
    Ok(Line::File(edited_path(alloc, file, number, written)?))
}

/// What a line says that removes a file.
fn remove_line(alloc: Global, file: &Text, number: u32, written: &[u8]) -> Result<Line, Fault>
    ensures { Gives result (remove_line file.now number written.now) }
{
    Ok(Line::Remove(edited_path(alloc, file, number, written)?))
}

/// What a line says that is a command. 2 where its words aren't words behind one space each, or begin a session.
fn command_line(alloc: Global, file: &Text, number: u32, text: &[u8]) -> Result<Line, Fault>
    ensures { Gives result (command_line file.now number text.now) }
{
    let words = words_of(alloc, text)?;
    if !are_command(words.as_slice()) {
        return Err(Fault::Diag(bad_line(alloc, file, number)?));
    }
    Ok(Line::Command(words))
}

/// What a line says that isn't skipped.
#[tactic(auto, unfolding(crate::specs::Scripts::file_front, crate::specs::Scripts::remove_front, crate::specs::Scripts::command_front))]
fn said(alloc: Global, file: &Text, number: u32, text: &[u8]) -> Result<Line, Fault>
    ensures { Gives result (said file.now number text.now) }
{
    if let Some(written) = behind(b"file ", text) {
        return file_line(alloc, file, number, written);
    }
    if let Some(written) = behind(b"remove ", text) {
        return remove_line(alloc, file, number, written);
    }
    if let Some(words) = behind(b"cm ", text) {
        return command_line(alloc, file, number, words);
    }
    Err(Fault::Diag(bad_line(alloc, file, number)?))
}

/// What a line says, or its refusal. A line of content is refused with 2 here: it is none of the others.
pub fn read_line(alloc: Global, file: &Text, number: u32, text: &[u8]) -> Result<Line, Fault>
    ensures { Gives result (line_of file.now number text.now) }
{
    if is_skipped(text) {
        return Ok(Line::Nothing);
    }
    said(alloc, file, number, text)
}
