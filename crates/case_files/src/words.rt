//! The words behind a section's name.

use crate::case::Section;
use crate::fault::{CaseFault, Wrong};
use cm_base::{NoMemory, Text};
use std::alloc::Global;

/// The number that decimal digits write.
pub fn number_of(word: &[u8]) -> Option<u32> {
    let digits = std::str::from_utf8(word).ok()?;
    digits.parse::<u32>().ok()
}

/// Adds a word.
fn add_word(alloc: Global, words: &mut Vec<Text>, word: &[u8]) -> Result<(), NoMemory> {
    words.push(Text::from_bytes(alloc, word)?)?;
    Ok(())
}

impl Section {
    /// The words behind its name, each behind one blank. Two blanks are refused.
    pub fn words(&self, alloc: Global) -> Result<Vec<Text>, CaseFault> {
        let mut words = Vec::new(alloc);
        let line = self.words.as_bytes();
        if line.is_empty() {
            return Ok(words);
        }
        for word in line.split(|byte| *byte == b' ') {
            if word.is_empty() {
                return Err(self.means_nothing());
            }
            add_word(alloc, &mut words, word)?;
        }
        Ok(words)
    }

    /// The refusal of words that mean nothing here.
    pub fn means_nothing(&self) -> CaseFault {
        CaseFault::Wrong(self.line, Wrong::Words)
    }
}
