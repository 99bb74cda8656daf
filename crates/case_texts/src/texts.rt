//! Cases of texts: one text, several that give the same, or rows with an answer each.

use crate::expanding::expanded;
use case_files::{Case, CaseFault, Report, Section, inputs_of, rows_of};
use cm_base::Text;
use std::alloc::Global;

/// A kind of cases that answers to texts.
pub trait Answers {
    /// The lines that are answered to a text of a case.
    fn answer(&self, alloc: Global, case: &Case, text: &Text) -> Result<Vec<u8>, CaseFault>;
}

/// A text that is tried: where it stands, the text, and what is wanted.
#[derive(Clone, Copy)]
struct Trial<'a> {
    line: u32,
    text: &'a Text,
    wanted: &'a Text,
}

/// Tries a text, and compares what is answered with what is wanted.
fn try_text<A: Answers>(
    alloc: Global,
    kind: &A,
    case: &Case,
    trial: Trial<'_>,
    report: &mut Report,
) -> Result<(), CaseFault> {
    let text = expanded(alloc, trial.line, trial.text.as_bytes())?;
    let wanted = expanded(alloc, trial.line, trial.wanted.as_bytes())?;
    let given = kind.answer(alloc, case, &text)?;
    report.compare(
        case,
        trial.line,
        b"another answer",
        wanted.as_bytes(),
        given.as_slice(),
    )?;
    Ok(())
}

/// Tries texts that each give the same answer.
fn try_each<A: Answers>(
    alloc: Global,
    kind: &A,
    case: &Case,
    report: &mut Report,
) -> Result<(), CaseFault> {
    let wanted = case.the(b"gives")?.bytes(alloc)?;
    for input in inputs_of(alloc, case)?.as_slice() {
        let trial = Trial {
            line: input.line,
            text: &input.bytes,
            wanted: &wanted,
        };
        try_text(alloc, kind, case, trial, report)?;
    }
    Ok(())
}

/// Tries rows, each a text with the line that it gives.
fn try_rows<A: Answers>(
    alloc: Global,
    kind: &A,
    case: &Case,
    rows: &Section,
    report: &mut Report,
) -> Result<(), CaseFault> {
    for row in rows_of(alloc, rows)?.as_slice() {
        let trial = Trial {
            line: row.line,
            text: &row.text,
            wanted: &row.wanted,
        };
        try_text(alloc, kind, case, trial, report)?;
    }
    Ok(())
}

/// Tries a case: its section `rows`, or else its `text` or `each` with what that `gives`. Beside these the kind may
/// have sections of two names of its own.
pub fn try_texts<A: Answers>(
    alloc: Global,
    kind: &A,
    own: (&'static [u8], &'static [u8]),
    case: &Case,
    report: &mut Report,
) -> Result<(), CaseFault> {
    match case.find(b"rows")? {
        Some(rows) => {
            case.has_only(&[b"rows", own.0, own.1])?;
            try_rows(alloc, kind, case, rows, report)
        }
        None => {
            case.has_only(&[b"text", b"each", b"gives", own.0, own.1])?;
            try_each(alloc, kind, case, report)
        }
    }
}
