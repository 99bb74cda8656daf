//! Cases `hash` and `same-hash`: the hash of a text, and whether another is the same.

use case_texts::line;
use cm_base::{NoMemory, Pid, Text};
use cm_bytes::{pid_name, pid_of, same_pid};
use std::alloc::Global;

/// The name of a text's hash.
pub fn named(alloc: Global, text: &Text) -> Result<Vec<u8>, NoMemory> {
    line(alloc, pid_name(alloc, &pid_of(text.as_bytes()))?.as_bytes())
}

/// Whether a hash is that of a text, in a word. Other than 32 bytes are none.
fn word_of(text: &[u8], hash: &[u8]) -> &'static [u8] {
    match hash.try_into() {
        Ok(bytes) if same_pid(&pid_of(text), &Pid { bytes }) => b"same\n",
        Ok(_bytes) => b"another\n",
        Err(_) => b"no hash\n",
    }
}

/// Whether the last 32 bytes are the hash of those before them.
pub fn compared(alloc: Global, text: &Text) -> Result<Vec<u8>, NoMemory> {
    let bytes = text.as_bytes();
    let (front, hash) = bytes.split_at(bytes.len().saturating_sub(32));
    Ok(Vec::from_slice(alloc, word_of(front, hash))?)
}
