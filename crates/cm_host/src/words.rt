//! The words that the program was called with.

use cm_base::NoMemory;
use std::env;
use std::io::ErrorKind;
use std::rt::Env;
use thiserror::Error;

/// Why the words can't be had.
#[derive(Clone, Copy, Debug, PartialEq, Eq, Error)]
pub enum WordsFault {
    #[error("a word isn't text")]
    NotText,
    #[error("out of memory")]
    NoMemory,
}

impl From<NoMemory> for WordsFault {
    fn from(_error: NoMemory) -> Self {
        WordsFault::NoMemory
    }
}

/// The words in a vector.
fn gathered<R: AllocGlobal>(rt: &R, words: env::Args) -> Result<Vec<String>, NoMemory> {
    let mut all = Vec::new(rt.alloc());
    for word in words {
        all.push(word)?;
    }
    Ok(all)
}

/// The words after the program's name.
pub fn program_words<R: Env + AllocGlobal>(rt: &R) -> Result<Vec<String>, WordsFault> {
    match env::args(rt) {
        Ok(mut words) => {
            let _name = words.next();
            Ok(gathered(rt, words)?)
        }
        Err(error) if error.kind() == ErrorKind::OutOfMemory => Err(WordsFault::NoMemory),
        Err(_) => Err(WordsFault::NotText),
    }
}
