//! The words that a program is called with.

ghost use Rattle.std.specs.Io.{WritesAtMost};

use case_files::{CaseFault, Section, push_all};
use case_scenes::{Answer, Stage, unknown};
use cm_base::{NoMemory, Text};
use cm_host::{WordsFault, program_words};
use std::alloc::Global;
use std::env::FillError;
use std::rt::Env;

/// The words of a call, the program's name first: `word` adds one, the lines below; the lines below `gives` are those
/// that the program sees, or that they are no text.
#[derive(Drop)]
pub struct WordsOfCall {
    words: Vec<Text>,
}

/// A caller that gives these words.
#[derive(Clone, Copy)]
struct Caller<'a> {
    words: &'a [Text],
}

/// Copies a word to the front of a buffer.
fn fill(word: &[u8], buf: &mut [u8]) -> Result<usize, FillError>
    ensures { WritesAtMost result buf.new }
{
    match buf.get_mut(..word.len()) {
        Some(front) => {
            front.copy_from_slice(word);
            Ok(word.len())
        }
        None => Err(FillError::TooLong),
    }
}

impl Env for Caller<'_> {
    fn arg(&self, i: usize, buf: &mut [u8]) -> Result<usize, FillError> {
        match self.words.get(i) {
            Some(word) => fill(word.as_bytes(), buf),
            None => Err(FillError::NotPresent),
        }
    }

    fn var(&self, _name: &str, _buf: &mut [u8]) -> Result<usize, FillError> {
        Err(FillError::NotPresent)
    }

    fn var_at(&self, _i: usize, _buf: &mut [u8]) -> Result<usize, FillError> {
        Err(FillError::NotPresent)
    }
}

/// Words, each in a line.
fn word_lines(alloc: Global, words: &[String]) -> Result<Text, NoMemory> {
    let mut out = Vec::new(alloc);
    for word in words {
        push_all(&mut out, word.as_bytes())?;
        push_all(&mut out, b"\n")?;
    }
    Ok(Text::from_vec(out))
}

/// What a program sees of the words that it is called with.
fn seen(alloc: Global, words: &[Text]) -> Result<Text, NoMemory> {
    match program_words(&(Caller { words }, alloc)) {
        Ok(words) => word_lines(alloc, words.as_slice()),
        Err(WordsFault::NotText) => Text::from_bytes(alloc, b"[no text]\n"),
        Err(WordsFault::NoMemory) => Err(NoMemory),
    }
}

impl WordsOfCall {
    /// No word.
    pub fn new(alloc: Global) -> WordsOfCall {
        WordsOfCall {
            words: Vec::new(alloc),
        }
    }
}

impl Stage for WordsOfCall {
    fn take(&mut self, alloc: Global, section: &Section) -> Result<Option<Answer>, CaseFault> {
        if section.is_named(b"word") {
            self.words.push(section.bytes(alloc)?)?;
            return Ok(None);
        }
        if !section.is_named(b"gives") {
            return Err(unknown(section));
        }
        Ok(Some(Answer {
            wanted: section.bytes(alloc)?,
            given: seen(alloc, self.words.as_slice())?,
        }))
    }
}
