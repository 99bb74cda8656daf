//! Cases of steps: something that is told one line after another, each with its answer.

use case_files::{Case, CaseFault, Report, Row, Wrong, rows_of};
use cm_base::{NoMemory, Text};
use std::alloc::Global;

/// What answers to one step after another.
pub trait Scene {
    /// The line that is answered to a step and the words behind it; `None` where they mean nothing.
    fn answer(
        &mut self,
        alloc: Global,
        step: &[u8],
        words: &[Text],
    ) -> Result<Option<Vec<u8>>, NoMemory>;
}

/// Adds a word.
fn add_word(alloc: Global, words: &mut Vec<Text>, word: &[u8]) -> Result<(), NoMemory> {
    words.push(Text::from_bytes(alloc, word)?)?;
    Ok(())
}

/// The words of a text, which are what stands between its blanks.
pub fn words_of(alloc: Global, text: &[u8]) -> Result<Vec<Text>, NoMemory> {
    let mut words = Vec::new(alloc);
    for word in text.split(|byte| *byte == b' ') {
        add_word(alloc, &mut words, word)?;
    }
    Ok(words)
}

/// A step, and the words behind it.
fn parts_of(alloc: Global, text: &[u8]) -> Result<(&[u8], Vec<Text>), NoMemory> {
    match text.iter().position(|byte| *byte == b' ') {
        Some(at) => Ok((&text[..at], words_of(alloc, &text[at + 1..])?)),
        None => Ok((text, Vec::new(alloc))),
    }
}

/// Takes a step, and compares its answer with the one that is wanted.
fn take_step<S: Scene>(
    alloc: Global,
    scene: &mut S,
    case: &Case,
    row: &Row,
    report: &mut Report,
) -> Result<(), CaseFault> {
    let (step, words) = parts_of(alloc, row.text.as_bytes())?;
    match scene.answer(alloc, step, words.as_slice())? {
        Some(given) => Ok(report.compare(
            case,
            row.line,
            b"another answer",
            row.wanted.as_bytes(),
            given.as_slice(),
        )?),
        None => Err(CaseFault::Wrong(row.line, Wrong::Words)),
    }
}

/// Takes the steps of a case, in order.
pub fn take_steps<S: Scene>(
    alloc: Global,
    scene: &mut S,
    case: &Case,
    report: &mut Report,
) -> Result<(), CaseFault> {
    for row in rows_of(alloc, case.the(b"steps")?)?.as_slice() {
        take_step(alloc, scene, case, row, report)?;
    }
    Ok(())
}
