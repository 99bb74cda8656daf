//! Steps as lines: `write PATH` with the content below it in lines with margins, `remove PATH`, and `cm WORDS`.

use case_files::{Part, push_lines, push_parts};
use cm_base::{NoMemory, Text};
use session_scripts::Step;
use std::alloc::Global;

/// Adds a word and a path as a line.
fn push_edit<'a>(
    alloc: Global,
    out: &mut Vec<u8>,
    word: &'a [u8],
    path: &'a Text,
) -> Result<(), NoMemory> {
    let parts = [
        Part::Text(word),
        Part::Text(path.as_bytes()),
        Part::Text(b"\n"),
    ];
    push_parts(alloc, out, &parts)
}

/// Adds words as a line.
fn push_command(alloc: Global, out: &mut Vec<u8>, words: &[Text]) -> Result<(), NoMemory> {
    push_parts(alloc, out, &[Part::Text(b"cm")])?;
    for word in words {
        push_parts(alloc, out, &[Part::Text(b" "), Part::Text(word.as_bytes())])?;
    }
    push_parts(alloc, out, &[Part::Text(b"\n")])
}

/// Adds a step.
fn push_step(alloc: Global, out: &mut Vec<u8>, step: &Step) -> Result<(), NoMemory> {
    match step {
        Step::Write { path, content } => {
            push_edit(alloc, out, b"write ", path)?;
            push_lines(out, content.as_bytes())
        }
        Step::Remove { path } => push_edit(alloc, out, b"remove ", path),
        Step::Command { words } => push_command(alloc, out, words.as_slice()),
    }
}

/// Steps as lines.
pub fn steps_text(alloc: Global, steps: &[Step]) -> Result<Vec<u8>, NoMemory> {
    let mut out = Vec::new(alloc);
    for step in steps {
        push_step(alloc, &mut out, step)?;
    }
    Ok(out)
}
