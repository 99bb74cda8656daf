//! Bare expressions, declarations and structure expressions.

use crate::patterns::{char, int, pat, string};
use crate::printer::Printer;
use crate::signatures::{replication, sig};
use crate::types::{dat_binds, ex_binds, marked_ty, typ_binds};
use cm_base::List;
use sml_trees::{
    At, DatBind, Dec, ExBind, Exp, ExpField, LongName, Name, Rule, SigExp, StrBind, StrExp, Ty,
    TypBind,
};

/// Adds an expression: its form and its parts in brackets.
#[cycle(exp)]
fn exp(to: &mut Printer, tree: &Exp) {
    match tree {
        Exp::Int(value, at) => int(to, *value, *at),
        Exp::Str(text, at) => string(to, text, *at),
        Exp::Char(byte, at) => char(to, *byte, *at),
        Exp::Long(name, at) => to.long_leaf(name, *at),
        Exp::Record(fields, at) => record(to, fields, *at),
        Exp::Let(bound, body, at) => {
            to.begin(b"[let", *at);
            marked_dec(to, b" ", bound.get());
            marked(to, b" in ", body.get());
            to.put(b"]");
        }
        Exp::App(function, arg, at) => {
            to.begin(b"[app", *at);
            marked(to, b" ", function.get());
            marked(to, b" ", arg.get());
            to.put(b"]");
        }
        Exp::Typed(inner, found, at) => typed(to, inner.get(), found, *at),
        Exp::Handle(inner, found, at) => {
            to.begin(b"[handle", *at);
            marked(to, b" ", inner.get());
            rules(to, b" | ", b"=>", found);
            to.put(b"]");
        }
        Exp::Raise(inner, at) => raised(to, inner.get(), *at),
        Exp::Fn(rules, at) => function(to, rules, *at),
    }
}

/// Adds an expression behind a mark.
#[cycle(exp)]
fn marked(to: &mut Printer, mark: &[u8], tree: &Exp) {
    to.put(mark);
    exp(to, tree)
}

/// Adds a record, whose fields have a comma each.
#[cycle(exp)]
fn record(to: &mut Printer, fields: &List<ExpField>, at: At) {
    to.open(b"{", at);
    for field in fields.as_slice() {
        to.put(field.label.text.as_bytes());
        marked(to, b"=", &field.exp);
        to.put(b",");
    }
    to.put(b"}")
}

/// Adds an expression with its type.
#[cycle(exp)]
fn typed(to: &mut Printer, inner: &Exp, found: &Ty, at: At) {
    to.begin(b"[:", at);
    marked(to, b" ", inner);
    marked_ty(to, b" ", found);
    to.put(b"]")
}

/// Adds `raise`.
#[cycle(exp)]
fn raised(to: &mut Printer, inner: &Exp, at: At) {
    to.begin(b"[raise", at);
    marked(to, b" ", inner);
    to.put(b"]")
}

/// Adds `fn`.
#[cycle(exp)]
fn function(to: &mut Printer, found: &List<Rule>, at: At) {
    to.begin(b"[fn", at);
    rules(to, b" | ", b"=>", found);
    to.put(b"]")
}

/// Adds rules, each behind a mark, with another between pattern and expression.
#[cycle(exp)]
fn rules(to: &mut Printer, mark: &[u8], between: &[u8], found: &List<Rule>) {
    for rule in found.as_slice() {
        to.put(mark);
        pat(to, &rule.pat);
        marked(to, between, &rule.exp);
    }
}

/// Adds a declaration: its word and what it binds in brackets, and a sequence in `< >`.
#[cycle(exp)]
fn dec(to: &mut Printer, tree: &Dec) {
    match tree {
        Dec::Val(tyvars, plain, recursive, at) => {
            to.begin(b"[val", *at);
            to.names(tyvars);
            rules(to, b" ", b"=", plain);
            rules(to, b" rec ", b"=", recursive);
            to.put(b"]");
        }
        Dec::Types(binds, at) => type_dec(to, binds, *at),
        Dec::Datatypes(binds, at) => datatype_dec(to, binds, *at),
        Dec::Replication(name, original, at) => replication(to, name, original, *at),
        Dec::Exceptions(binds, at) => exception_dec(to, binds, *at),
        Dec::Local(hidden, shown, at) => {
            to.begin(b"[local", *at);
            marked_dec(to, b" ", hidden.get());
            marked_dec(to, b" in ", shown.get());
            to.put(b"]");
        }
        Dec::Open(found, at) => open_dec(to, found, *at),
        Dec::Sequence(all, at) => sequence(to, all, *at),
        Dec::Structures(binds, at) => structures(to, binds, *at),
    }
}

/// Adds a declaration behind a mark.
#[cycle(exp)]
fn marked_dec(to: &mut Printer, mark: &[u8], tree: &Dec) {
    to.put(mark);
    dec(to, tree)
}

/// Adds `type`.
fn type_dec(to: &mut Printer, binds: &List<TypBind>, at: At) {
    to.begin(b"[type", at);
    typ_binds(to, binds)
}

/// Adds `datatype`.
fn datatype_dec(to: &mut Printer, binds: &List<DatBind>, at: At) {
    to.begin(b"[datatype", at);
    dat_binds(to, binds)
}

/// Adds `exception`.
fn exception_dec(to: &mut Printer, binds: &List<ExBind>, at: At) {
    to.begin(b"[exception", at);
    ex_binds(to, binds)
}

/// Adds `open`.
fn open_dec(to: &mut Printer, found: &List<LongName>, at: At) {
    to.begin(b"[open", at);
    to.longs(found);
    to.put(b"]")
}

/// Adds declarations, each with a semicolon, in `< >`.
#[cycle(exp)]
fn sequence(to: &mut Printer, all: &List<Dec>, at: At) {
    to.open(b"<", at);
    for each in all.as_slice() {
        dec(to, each);
        to.put(b";");
    }
    to.put(b">")
}

/// Adds `structure`.
#[cycle(exp)]
pub fn structures(to: &mut Printer, binds: &List<StrBind>, at: At) {
    to.begin(b"[structure", at);
    for bind in binds.as_slice() {
        to.marked(b" ", &bind.name);
        to.put(b"=");
        str_exp(to, &bind.body);
    }
    to.put(b"]")
}

/// Adds a structure expression.
#[cycle(exp)]
pub fn str_exp(to: &mut Printer, tree: &StrExp) {
    match tree {
        StrExp::Struct(body, at) => structure(to, body.get(), *at),
        StrExp::Named(name, at) => to.long_leaf(name, *at),
        StrExp::Transparent(body, given, at) => sealed(to, b"[:", body.get(), given, *at),
        StrExp::Opaque(body, given, at) => sealed(to, b"[:>", body.get(), given, *at),
        StrExp::Functor(name, arg, at) => functor(to, name, arg.get(), *at),
        StrExp::Within(bound, body, at) => {
            to.begin(b"[let", *at);
            marked_dec(to, b" ", bound.get());
            to.put(b" in ");
            str_exp(to, body.get());
            to.put(b"]");
        }
    }
}

/// Adds `struct`.
#[cycle(exp)]
fn structure(to: &mut Printer, body: &Dec, at: At) {
    to.begin(b"[struct", at);
    marked_dec(to, b" ", body);
    to.put(b"]")
}

/// Adds a structure expression with its signature.
#[cycle(exp)]
fn sealed(to: &mut Printer, mark: &[u8], body: &StrExp, given: &SigExp, at: At) {
    to.begin(mark, at);
    to.put(b" ");
    str_exp(to, body);
    to.put(b" ");
    sig(to, given);
    to.put(b"]")
}

/// Adds a functor with its argument.
#[cycle(exp)]
fn functor(to: &mut Printer, name: &Name, arg: &StrExp, at: At) {
    to.begin(b"[functor", at);
    to.marked(b" ", name);
    to.put(b" ");
    str_exp(to, arg);
    to.put(b"]")
}
