//! The kinds of cases of texts: what each calls, and the sections of its own.

use crate::kind::TextKind;
use crate::{asking, descriptions, large_orders, orders, paths};
use case_files::{Case, CaseFault, Report};
use case_texts::{Answers, try_texts};
use cm_base::{NoMemory, Text};
use std::alloc::Global;

/// What a library answers to a text alone, as lines.
fn plain_answer(alloc: Global, kind: TextKind, text: &Text) -> Result<Vec<u8>, NoMemory> {
    match kind {
        TextKind::Description => descriptions::described(alloc, text),
        TextKind::Printed => descriptions::printed(alloc, text),
        TextKind::Ask => asking::asked(alloc, text),
        _ => paths::read(alloc, text),
    }
}

impl Answers for TextKind {
    fn answer(&self, alloc: Global, case: &Case, text: &Text) -> Result<Vec<u8>, CaseFault> {
        match *self {
            TextKind::Resolve => paths::resolved(alloc, case, text),
            TextKind::Lie => paths::laid(alloc, case, text),
            TextKind::Order => orders::ordered(alloc, case, text),
            TextKind::LargeOrder => large_orders::ordered(alloc, case, text),
            kind => Ok(plain_answer(alloc, kind, text)?),
        }
    }
}

/// The name of a section that a kind has of its own.
fn own_section(kind: TextKind) -> &'static [u8] {
    match kind {
        TextKind::Resolve | TextKind::Lie => b"pathconfig",
        TextKind::Order => b"units",
        _ => b"",
    }
}

/// Tries a case of a kind.
pub fn try_kind(
    alloc: Global,
    kind: TextKind,
    case: &Case,
    report: &mut Report,
) -> Result<(), CaseFault> {
    try_texts(alloc, &kind, (own_section(kind), b""), case, report)
}
