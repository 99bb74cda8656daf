//! Patterns as they are written.

use crate::types::{marked_ty, maybe_ty, op_leaf, op_name};
use cm_base::List;
use sml_trees::{At, Constant, Fixity, FullPat, FullPatField, FullPatItem, FullTy, Name, OpName};
use tree_printing::Printer;

/// Adds a constant: an integer's value, a string's bytes, a character.
pub fn constant(to: &mut Printer, value: &Constant, at: At) {
    match value {
        Constant::Int(number) => to.int(*number),
        Constant::Str(text) => to.put(text.as_bytes()),
        Constant::Char(byte) => to.put(&[*byte]),
    }
    to.at(at)
}

/// Adds an operator of a run, with the side from which it binds.
pub fn operator(to: &mut Printer, name: &Name, fixity: Fixity) {
    to.name(name);
    to.put(if fixity.right { b"R" } else { b"L" })
}

/// Adds a pattern: its form and its parts in brackets.
#[cycle(full_pat)]
pub fn pat(to: &mut Printer, tree: &FullPat) {
    match tree {
        FullPat::Wild(at) => to.begin(b"_", *at),
        FullPat::Constant(value, at) => constant(to, value, *at),
        FullPat::Long(name, at) => op_leaf(to, name, *at),
        FullPat::Unit(at) => to.begin(b"()", *at),
        FullPat::Record(fields, at) => record(to, fields, *at),
        FullPat::Tuple(parts, at) => listed(to, b"[,", parts, *at),
        FullPat::List(parts, at) => listed(to, b"[list", parts, *at),
        FullPat::Paren(inner, at) => paren(to, inner.get(), *at),
        FullPat::Run(items, at) => run(to, items, *at),
        FullPat::Typed(inner, found, at) => typed(to, inner.get(), found, *at),
        FullPat::As(name, found, inner, at) => layered(to, name, found, inner.get(), *at),
    }
}

/// Adds patterns, each behind a space.
#[cycle(full_pat)]
pub fn pats(to: &mut Printer, trees: &List<FullPat>) {
    for tree in trees.as_slice() {
        to.put(b" ");
        pat(to, tree);
    }
}

/// Adds patterns behind a word, and the closing bracket.
#[cycle(full_pat)]
fn listed(to: &mut Printer, word: &[u8], trees: &List<FullPat>, at: At) {
    to.begin(word, at);
    pats(to, trees);
    to.put(b"]")
}

/// Adds a pattern in parentheses.
#[cycle(full_pat)]
fn paren(to: &mut Printer, inner: &FullPat, at: At) {
    to.open(b"(", at);
    pat(to, inner);
    to.put(b")")
}

/// Adds a run.
#[cycle(full_pat)]
fn run(to: &mut Printer, items: &List<FullPatItem>, at: At) {
    to.begin(b"[run", at);
    for item in items.as_slice() {
        to.put(b" ");
        run_item(to, item);
    }
    to.put(b"]")
}

/// Adds a part of a run.
#[cycle(full_pat)]
fn run_item(to: &mut Printer, item: &FullPatItem) {
    match item {
        FullPatItem::Atom(tree) => pat(to, tree),
        FullPatItem::Operator(name, fixity) => operator(to, name, *fixity),
    }
}

/// Adds a pattern with its type.
#[cycle(full_pat)]
fn typed(to: &mut Printer, inner: &FullPat, found: &FullTy, at: At) {
    to.begin(b"[:", at);
    to.put(b" ");
    pat(to, inner);
    marked_ty(to, b" ", found);
    to.put(b"]")
}

/// Adds a name with what it stands for.
#[cycle(full_pat)]
fn layered(to: &mut Printer, name: &OpName, found: &Option<FullTy>, inner: &FullPat, at: At) {
    to.begin(b"[as", at);
    to.put(b" ");
    op_name(to, name);
    maybe_ty(to, b":", found);
    to.put(b" ");
    pat(to, inner);
    to.put(b"]")
}

/// Adds a record, whose fields have a comma each.
#[cycle(full_pat)]
fn record(to: &mut Printer, fields: &List<FullPatField>, at: At) {
    to.open(b"{", at);
    for each in fields.as_slice() {
        field(to, each);
        to.put(b",");
    }
    to.put(b"}")
}

/// Adds a field.
#[cycle(full_pat)]
fn field(to: &mut Printer, each: &FullPatField) {
    match each {
        FullPatField::Labelled(label, tree) => {
            to.name(label);
            marked(to, b"=", tree)
        }
        FullPatField::Named(name, found, inner) => {
            to.name(name);
            maybe_ty(to, b":", found);
            maybe(to, b" as ", inner)
        }
    }
}

/// Adds a pattern behind a mark.
#[cycle(full_pat)]
fn marked(to: &mut Printer, mark: &[u8], tree: &FullPat) {
    to.put(mark);
    pat(to, tree)
}

/// Adds a pattern behind a mark, if there is one.
#[cycle(full_pat)]
fn maybe(to: &mut Printer, mark: &[u8], found: &Option<FullPat>) {
    match found {
        Some(tree) => marked(to, mark, tree),
        None => {}
    }
}
