//! Cases `type`, `pattern`, `expression` and `declarations`: a phrase of at most so many levels. They give the
//! tree, `no` where it is refused, or `deep` where it opens a level too many; and how many lexemes are left, of
//! declarations the column of the next one, 0 past the last. Of declarations `briefly` puts `ok` in the place of
//! the trees.

use crate::diagnostics::{file, refused_line};
use crate::fixities::fixities_of;
use crate::kind::Kind;
use crate::texts::number_behind;
use case_files::{Case, CaseFault, Part, Wrong, number_of};
use cm_base::{Fault, List, Text};
use core_expressions::decs::decs;
use core_expressions::exp::exp;
use core_patterns::patterns::pat;
use core_types::types::ty;
use infix_names::fixity::Fixities;
use phrase_reading::lexemes::Lexemes;
use phrase_reading::stop::Stop;
use sml_lexer::{Lexeme, lex};
use sml_trees::FullDec;
use std::alloc::Global;
use tree_printing::Printer;

/// A number before the first space of a text, and the text behind it.
fn number_before<'a>(case: &Case, text: &'a [u8]) -> Result<(u32, &'a [u8]), CaseFault> {
    let space = text.iter().position(|byte| *byte == b' ');
    let Some(at) = space else {
        return Err(CaseFault::Wrong(case.line, Wrong::Words));
    };
    match number_of(&text[..at]) {
        Some(number) => Ok((number, &text[at + 1..])),
        None => Err(CaseFault::Wrong(case.line, Wrong::Words)),
    }
}

/// The number that a section of this name has, and the text; without the section, the number that the text begins
/// with, and the text behind it.
pub fn with_number<'a>(
    case: &Case,
    name: &[u8],
    text: &'a [u8],
) -> Result<(u32, &'a [u8]), CaseFault> {
    match case.find(name)? {
        Some(section) => Ok((number_behind(section)?, text)),
        None => number_before(case, text),
    }
}

/// The lexemes of a source.
pub fn lexemes_of(alloc: Global, source: &[u8]) -> Result<List<Lexeme>, Fault> {
    let text = Text::from_bytes(alloc, source)?;
    lex(alloc, &file(alloc)?, &text)
}

/// Adds why a phrase isn't read.
fn push_stop(to: &mut Printer, stop: Stop) {
    match stop {
        Stop::Refused => to.put(b"no"),
        Stop::TooDeep => to.put(b"deep"),
        Stop::NoMemory => to.fail(),
    }
}

/// Adds a type, or why it isn't read.
fn push_ty(alloc: Global, to: &mut Printer, left: &mut Lexemes<'_>, levels: u32) {
    match ty(alloc, left, levels) {
        Ok(made) => full_tree_printing::ty(to, &made.tree),
        Err(stop) => push_stop(to, stop),
    }
}

/// Adds a pattern, or why it isn't read.
fn push_pat(
    alloc: Global,
    to: &mut Printer,
    left: &mut Lexemes<'_>,
    infix: &Fixities,
    levels: u32,
) {
    match pat(alloc, left, infix, levels) {
        Ok(made) => full_tree_printing::pat(to, &made.tree),
        Err(stop) => push_stop(to, stop),
    }
}

/// Adds an expression, or why it isn't read.
fn push_exp(
    alloc: Global,
    to: &mut Printer,
    left: &mut Lexemes<'_>,
    infix: &mut Fixities,
    levels: u32,
) {
    match exp(alloc, left, infix, levels) {
        Ok(made) => full_tree_printing::exp(to, &made.tree),
        Err(stop) => push_stop(to, stop),
    }
}

/// Adds declarations with a space between them, `nothing` where there is none.
fn print_decs(to: &mut Printer, found: &[FullDec]) {
    if found.is_empty() {
        to.put(b"nothing");
    }
    let mut space: &[u8] = b"";
    for tree in found {
        to.put(space);
        full_tree_printing::dec(to, tree);
        space = b" ";
    }
}

/// Adds declarations, or why they aren't read.
fn push_decs(
    alloc: Global,
    to: &mut Printer,
    left: &mut Lexemes<'_>,
    infix: &mut Fixities,
    levels: u32,
    is_brief: bool,
) {
    match decs(alloc, left, infix, levels) {
        Ok(_made) if is_brief => to.put(b"ok"),
        Ok(made) => print_decs(to, made.tree.as_slice()),
        Err(stop) => push_stop(to, stop),
    }
}

/// The column of a lexeme, 0 where there is none.
pub fn column(next: Option<&Lexeme>) -> u64 {
    match next {
        Some(lexeme) => u64::from(lexeme.col),
        None => 0,
    }
}

/// Adds a number behind a space.
pub fn push_number(to: &mut Printer, number: u64) {
    to.parts(&[Part::Text(b" "), Part::Number(number), Part::Text(b"\n")]);
}

/// What is answered of a phrase that these lexemes begin with.
fn shown(
    alloc: Global,
    kind: Kind,
    lexemes: &[Lexeme],
    infix: &mut Fixities,
    levels: u32,
    is_brief: bool,
) -> Printer {
    let mut to = Printer::new(alloc, false);
    let mut left = Lexemes { rest: lexemes };
    match kind {
        Kind::Type => push_ty(alloc, &mut to, &mut left, levels),
        Kind::Pattern => push_pat(alloc, &mut to, &mut left, infix, levels),
        Kind::Expression => push_exp(alloc, &mut to, &mut left, infix, levels),
        _ => push_decs(alloc, &mut to, &mut left, infix, levels, is_brief),
    }
    match kind {
        Kind::Declarations => push_number(&mut to, column(left.peek())),
        _ => push_number(&mut to, left.rest.len() as u64),
    }
    to
}

/// What is answered of a phrase of at most so many levels.
pub fn answer(alloc: Global, kind: Kind, case: &Case, text: &[u8]) -> Result<Vec<u8>, CaseFault> {
    let (levels, source) = with_number(case, b"levels", text)?;
    let is_brief = case.find(b"briefly")?.is_some();
    let mut infix = fixities_of(alloc, case)?;
    match lexemes_of(alloc, source) {
        Ok(found) => {
            let to = shown(alloc, kind, found.as_slice(), &mut infix, levels, is_brief);
            Ok(Vec::from_slice(alloc, to.bytes()?)?)
        }
        Err(fault) => Ok(refused_line(alloc, &fault)?),
    }
}
