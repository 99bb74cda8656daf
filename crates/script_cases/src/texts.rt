//! What each kind answers to a text.

use crate::kind::TextKind;
use crate::steps::steps_text;
use case_files::{Case, CaseFault, Wrong, number_of};
use case_texts::{Answers, refusal};
use cm_base::{NoMemory, Text};
use generated_projects::generated_steps;
use session_scripts::read_script;
use std::alloc::Global;

/// The steps of a script with the name `s.txt`, or its refusal.
fn scripted(alloc: Global, text: &Text) -> Result<Vec<u8>, NoMemory> {
    let file = Text::from_bytes(alloc, b"s.txt")?;
    match read_script(alloc, &file, text) {
        Ok(steps) => steps_text(alloc, steps.as_slice()),
        Err(fault) => refusal(alloc, &fault),
    }
}

/// The steps that make a project of as many units as a text says, which is a number from 1 to 2,000.
fn generated(alloc: Global, case: &Case, text: &Text) -> Result<Vec<u8>, CaseFault> {
    match number_of(text.as_bytes()) {
        Some(n @ 1..=2_000) => {
            let steps = generated_steps(alloc, n)?;
            Ok(steps_text(alloc, steps.as_slice())?)
        }
        _ => Err(CaseFault::Wrong(case.line, Wrong::Words)),
    }
}

impl Answers for TextKind {
    fn answer(&self, alloc: Global, case: &Case, text: &Text) -> Result<Vec<u8>, CaseFault> {
        match *self {
            TextKind::Script => Ok(scripted(alloc, text)?),
            TextKind::Generated => generated(alloc, case, text),
        }
    }
}
