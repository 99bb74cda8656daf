//! Steps that write the interface of a top.

use crate::scene::{GraphScene, top_of};
use case_files::{Part, push_parts};
use cm_base::{Fault, NoMemory, Text};
use env_pickle::pickle;
use std::alloc::Global;

/// The hex digits.
const DIGITS: &[u8] = b"0123456789abcdef";

/// Bytes as a line of hex digits.
fn hex_line(alloc: Global, bytes: &[u8]) -> Result<Vec<u8>, NoMemory> {
    let mut out = Vec::new(alloc);
    for byte in bytes {
        out.push(DIGITS[(*byte / 16) as usize])?;
        out.push(DIGITS[(*byte % 16) as usize])?;
    }
    out.push(b'\n')?;
    Ok(out)
}

/// A number behind a word, as a line.
fn counted_line(alloc: Global, word: &[u8], number: u64) -> Result<Vec<u8>, NoMemory> {
    let mut out = Vec::new(alloc);
    push_parts(
        alloc,
        &mut out,
        &[Part::Text(word), Part::Number(number), Part::Text(b"\n")],
    )?;
    Ok(out)
}

impl GraphScene {
    /// The interface of a top, whole or how many bytes it has; or the number of its diagnostic.
    fn interface(
        &mut self,
        top: &Text,
        home: &Text,
        is_whole: bool,
    ) -> Result<Option<Vec<u8>>, NoMemory> {
        let Some(top) = top_of(&self.graph, &self.tops, top) else {
            return Ok(None);
        };
        match pickle(&self.graph, top, home) {
            Ok(text) => {
                let bytes = text.as_bytes();
                let out = if is_whole {
                    hex_line(self.alloc, bytes)?
                } else {
                    counted_line(self.alloc, b"bytes ", bytes.len() as u64)?
                };
                Ok(Some(out))
            }
            Err(Fault::Diag(diag)) => Ok(Some(counted_line(
                self.alloc,
                b"error ",
                u64::from(diag.number),
            )?)),
            Err(Fault::NoMemory) => Err(NoMemory),
        }
    }

    /// What is answered to a step that writes an interface.
    pub fn interface_step(
        &mut self,
        step: &[u8],
        words: &[Text],
    ) -> Result<Option<Vec<u8>>, NoMemory> {
        match (step, words) {
            (b"interface", [top, home]) => self.interface(top, home, true),
            (b"interface-size", [top, home]) => self.interface(top, home, false),
            _ => Ok(None),
        }
    }
}
