//! Bare patterns.

use crate::printer::Printer;
use crate::types::{marked_ty, maybe_ty};
use case_files::Part;
use cm_base::{List, Text};
use sml_trees::{At, LongName, Name, Pat, PatField, Ty};

/// Adds an integer.
pub fn int(to: &mut Printer, value: i64, at: At) {
    to.int(value);
    to.at(at)
}

/// Adds a string, between quotes.
pub fn string(to: &mut Printer, text: &Text, at: At) {
    to.parts(&[
        Part::Text(b"\""),
        Part::Text(text.as_bytes()),
        Part::Text(b"\""),
    ]);
    to.at(at)
}

/// Adds a character, as `#` and the number of its byte.
pub fn char(to: &mut Printer, byte: u8, at: At) {
    to.parts(&[Part::Text(b"#"), Part::Number(u64::from(byte))]);
    to.at(at)
}

/// Adds a pattern: its form and its parts in brackets.
#[cycle(pat)]
pub fn pat(to: &mut Printer, tree: &Pat) {
    match tree {
        Pat::Wild(at) => to.begin(b"_", *at),
        Pat::Int(value, at) => int(to, *value, *at),
        Pat::Str(text, at) => string(to, text, *at),
        Pat::Char(byte, at) => char(to, *byte, *at),
        Pat::Long(name, at) => to.long_leaf(name, *at),
        Pat::Record(fields, at) => record(to, fields, *at),
        Pat::Con(name, arg, at) => con(to, name, arg.get(), *at),
        Pat::Typed(inner, found, at) => typed(to, inner.get(), found, *at),
        Pat::As(name, found, inner, at) => layered(to, name, found, inner.get(), *at),
    }
}

/// Adds a record, whose fields have a comma each.
#[cycle(pat)]
fn record(to: &mut Printer, fields: &List<PatField>, at: At) {
    to.open(b"{", at);
    for field in fields.as_slice() {
        to.put(field.label.text.as_bytes());
        to.put(b"=");
        pat(to, &field.pat);
        to.put(b",");
    }
    to.put(b"}")
}

/// Adds a constructor with its argument.
#[cycle(pat)]
fn con(to: &mut Printer, name: &LongName, arg: &Pat, at: At) {
    to.begin(b"[con", at);
    to.marked_long(b" ", name);
    to.put(b" ");
    pat(to, arg);
    to.put(b"]")
}

/// Adds a pattern with its type.
#[cycle(pat)]
fn typed(to: &mut Printer, inner: &Pat, found: &Ty, at: At) {
    to.begin(b"[:", at);
    to.put(b" ");
    pat(to, inner);
    marked_ty(to, b" ", found);
    to.put(b"]")
}

/// Adds a name with what it stands for.
#[cycle(pat)]
fn layered(to: &mut Printer, name: &Name, found: &Option<Ty>, inner: &Pat, at: At) {
    to.begin(b"[as", at);
    to.marked(b" ", name);
    maybe_ty(to, b":", found);
    to.put(b" ");
    pat(to, inner);
    to.put(b"]")
}
