//! Cases `texts` and `on-file`: how two texts stand to one another, and a diagnostic on a whole file.

use crate::conditions::at_blank;
use case_files::{Case, CaseFault, Wrong, number_of};
use case_texts::{line, push_diag};
use cm_base::{Diag, NoMemory, Text};
use std::alloc::Global;
use std::cmp::Ordering;

/// The text before a bar, and the text behind it.
fn at_bar(text: &[u8]) -> Option<(&[u8], &[u8])> {
    match text.iter().position(|byte| *byte == b'|') {
        Some(at) => Some((&text[..at], &text[at + 1..])),
        None => None,
    }
}

/// How the first of two texts stands to the second, in a word.
fn order_of(alloc: Global, first: &[u8], second: &[u8]) -> Result<Vec<u8>, NoMemory> {
    let first = Text::from_bytes(alloc, first)?;
    let second = Text::from_bytes(alloc, second)?;
    match first.cmp(&second) {
        Ordering::Less => line(alloc, b"before"),
        Ordering::Equal => line(alloc, b"same"),
        Ordering::Greater => line(alloc, b"behind"),
    }
}

/// How the text before a bar stands to the text behind it.
pub fn ordered(alloc: Global, case: &Case, text: &Text) -> Result<Vec<u8>, CaseFault> {
    match at_bar(text.as_bytes()) {
        Some((first, second)) => Ok(order_of(alloc, first, second)?),
        None => Err(CaseFault::Wrong(case.line, Wrong::Words)),
    }
}

/// The line of a diagnostic of this number on a file.
fn diag_line(alloc: Global, number: u8, file: &[u8]) -> Result<Vec<u8>, NoMemory> {
    let file = Text::from_bytes(alloc, file)?;
    let mut out = Vec::new(alloc);
    push_diag(alloc, &mut out, &Diag::on_file(alloc, number, &file)?)?;
    Ok(out)
}

/// The number and the file of a diagnostic.
fn number_and_file(text: &[u8]) -> Option<(u8, &[u8])> {
    let (number, file) = at_blank(text)?;
    Some((u8::try_from(number_of(number)?).ok()?, file))
}

/// The diagnostic of a number on a file.
pub fn on_file(alloc: Global, case: &Case, text: &Text) -> Result<Vec<u8>, CaseFault> {
    match number_and_file(text.as_bytes()) {
        Some((number, file)) => Ok(diag_line(alloc, number, file)?),
        None => Err(CaseFault::Wrong(case.line, Wrong::Words)),
    }
}
