//! The kinds of cases of texts: what each calls, and the sections of its own.

use crate::kind::TextKind;
use crate::{base, conditions, fields, hashes, lexing, selecting, toy_sums};
use case_files::{Case, CaseFault, Report};
use case_texts::{Answers, try_texts};
use cm_base::{NoMemory, Text};
use std::alloc::Global;

/// What a library answers to a text alone, as lines.
fn plain_answer(alloc: Global, kind: TextKind, text: &Text) -> Result<Vec<u8>, NoMemory> {
    match kind {
        TextKind::Tokens => lexing::tokens_of(alloc, text),
        TextKind::Scan => lexing::scanned(alloc, text),
        TextKind::Hash => hashes::named(alloc, text),
        TextKind::SameHash => hashes::compared(alloc, text),
        _ => conditions::printed(alloc, text),
    }
}

impl Answers for TextKind {
    fn answer(&self, alloc: Global, case: &Case, text: &Text) -> Result<Vec<u8>, CaseFault> {
        match *self {
            TextKind::Texts => base::ordered(alloc, case, text),
            TextKind::OnFile => base::on_file(alloc, case, text),
            TextKind::Sum => toy_sums::summed(alloc, case, text),
            TextKind::Written => fields::written(alloc, case.line, text),
            TextKind::Value => conditions::valued(alloc, case, text),
            TextKind::Select => selecting::selected(alloc, case, text),
            kind => Ok(plain_answer(alloc, kind, text)?),
        }
    }
}

/// The names of up to two sections that a kind has of its own.
fn own_sections(kind: TextKind) -> (&'static [u8], &'static [u8]) {
    match kind {
        TextKind::Sum => (b"levels", b""),
        TextKind::Value | TextKind::Select => (b"definitions", b"modules"),
        _ => (b"", b""),
    }
}

/// Tries a case of a kind.
pub fn try_kind(
    alloc: Global,
    kind: TextKind,
    case: &Case,
    report: &mut Report,
) -> Result<(), CaseFault> {
    try_texts(alloc, &kind, own_sections(kind), case, report)
}
