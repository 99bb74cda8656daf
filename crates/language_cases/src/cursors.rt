//! Cases `type-at`, `pattern-at`, `expression-at` and `declaration-at`: a phrase at a cursor around which so many
//! levels are open. They give the tree or the diagnostic, and the column of the next lexeme, 0 past the last.
//! `briefly` puts `ok` in the place of the tree.

ghost use Rattle.std.specs.Prelude.{◌≤◌};

use crate::diagnostics::{file, refused, refused_line};
use crate::kind::Kind;
use crate::phrases::{column, lexemes_of, push_number, with_number};
use case_files::{Case, CaseFault, Wrong};
use cm_base::{Fault, List, NoMemory};
use core_parser::{Cursor, parse_dec, parse_exp, parse_pat, parse_ty};
use sml_lexer::Lexeme;
use std::alloc::Global;
use tree_printing::Printer;

/// The greatest number of levels that are open around a cursor.
const MOST_OPEN: u32 = 128;

/// Adds the diagnostic that a fault is.
fn push_fault(alloc: Global, to: &mut Printer, fault: &Fault) {
    match refused(alloc, fault) {
        Ok(line) => to.put(line.as_slice()),
        Err(NoMemory) => to.fail(),
    }
}

/// Adds the type at a cursor.
fn push_ty(alloc: Global, to: &mut Printer, at: &mut Cursor, is_brief: bool) {
    match parse_ty(at) {
        Ok(_tree) if is_brief => to.put(b"ok"),
        Ok(tree) => full_tree_printing::ty(to, &tree),
        Err(fault) => push_fault(alloc, to, &fault),
    }
}

/// Adds the pattern at a cursor.
fn push_pat(alloc: Global, to: &mut Printer, at: &mut Cursor, is_brief: bool) {
    match parse_pat(at) {
        Ok(_tree) if is_brief => to.put(b"ok"),
        Ok(tree) => full_tree_printing::pat(to, &tree),
        Err(fault) => push_fault(alloc, to, &fault),
    }
}

/// Adds the expression at a cursor.
fn push_exp(alloc: Global, to: &mut Printer, at: &mut Cursor, is_brief: bool) {
    match parse_exp(at) {
        Ok(_tree) if is_brief => to.put(b"ok"),
        Ok(tree) => full_tree_printing::exp(to, &tree),
        Err(fault) => push_fault(alloc, to, &fault),
    }
}

/// Adds the declaration at a cursor.
fn push_dec(alloc: Global, to: &mut Printer, at: &mut Cursor, is_brief: bool) {
    match parse_dec(at) {
        Ok(_tree) if is_brief => to.put(b"ok"),
        Ok(tree) => full_tree_printing::dec(to, &tree),
        Err(fault) => push_fault(alloc, to, &fault),
    }
}

/// What is answered of the phrase that these lexemes begin with, where so many levels are open.
fn shown(
    alloc: Global,
    kind: Kind,
    lexemes: List<Lexeme>,
    levels: u32,
    is_brief: bool,
) -> Result<Vec<u8>, NoMemory>
    requires { levels ≤ 128 }
{
    let mut at = Cursor::new(alloc, &file(alloc)?, lexemes)?;
    at.nest(levels);
    let mut to = Printer::new(alloc, false);
    match kind {
        Kind::TypeAt => push_ty(alloc, &mut to, &mut at, is_brief),
        Kind::PatternAt => push_pat(alloc, &mut to, &mut at, is_brief),
        Kind::ExpressionAt => push_exp(alloc, &mut to, &mut at, is_brief),
        _ => push_dec(alloc, &mut to, &mut at, is_brief),
    }
    push_number(&mut to, column(at.peek()));
    Ok(Vec::from_slice(alloc, to.bytes()?)?)
}

/// What is answered of a phrase at a cursor.
pub fn answer(alloc: Global, kind: Kind, case: &Case, text: &[u8]) -> Result<Vec<u8>, CaseFault> {
    let (levels, source) = with_number(case, b"open", text)?;
    if levels > MOST_OPEN {
        return Err(CaseFault::Wrong(case.line, Wrong::Words));
    }
    let is_brief = case.find(b"briefly")?.is_some();
    match lexemes_of(alloc, source) {
        Ok(found) => Ok(shown(alloc, kind, found, levels, is_brief)?),
        Err(fault) => Ok(refused_line(alloc, &fault)?),
    }
}
