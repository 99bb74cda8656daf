//! Edits and commands, as they are told in the script of a session.

use case_files::push_all;
use cm_base::{NoMemory, Text};
use std::alloc::Global;

/// The script of the edits and commands so far.
#[derive(Drop)]
pub struct Script {
    pub text: Vec<u8>,
}

impl Script {
    /// No edit and no command yet.
    pub fn new(alloc: Global) -> Script {
        Script {
            text: Vec::new(alloc),
        }
    }

    /// Adds a line: how it begins, and the rest of it.
    fn push_line(&mut self, front: &[u8], rest: &[u8]) -> Result<(), NoMemory> {
        push_all(&mut self.text, front)?;
        push_all(&mut self.text, rest)?;
        push_all(&mut self.text, b"\n")
    }

    /// Adds the edit that writes a file of whole lines.
    pub fn write(&mut self, path: &Text, bytes: &[u8]) -> Result<(), NoMemory> {
        self.push_line(b"file ", path.as_bytes())?;
        let lines = bytes.strip_suffix(b"\n").unwrap_or(bytes);
        for line in lines.split(|byte| *byte == b'\n') {
            self.push_line(b"|", line)?;
        }
        Ok(())
    }

    /// Adds the edit that takes a file away.
    pub fn remove(&mut self, path: &Text) -> Result<(), NoMemory> {
        self.push_line(b"remove ", path.as_bytes())
    }

    /// Adds the command of these words.
    pub fn command(&mut self, words: &[String]) -> Result<(), NoMemory> {
        push_all(&mut self.text, b"cm")?;
        for word in words {
            push_all(&mut self.text, b" ")?;
            push_all(&mut self.text, word.as_bytes())?;
        }
        push_all(&mut self.text, b"\n")
    }
}
