//! Structure expressions and the declarations in them, as they are written.

use crate::expressions::dec;
use crate::signatures::{seal, sig};
use cm_base::List;
use sml_trees::{At, FullSigExp, FullStrBind, FullStrDec, FullStrExp, Name};
use tree_printing::Printer;

/// Adds declarations of a structure, each with a semicolon.
#[cycle(full_str)]
fn str_decs(to: &mut Printer, trees: &List<FullStrDec>) {
    for tree in trees.as_slice() {
        str_dec(to, tree);
        to.put(b";");
    }
}

/// Adds a declaration of a structure: `structure` and `local` without brackets, and those of the core.
#[cycle(full_str)]
fn str_dec(to: &mut Printer, tree: &FullStrDec) {
    match tree {
        FullStrDec::Structures(binds, at) => structures(to, binds, *at),
        FullStrDec::Local(hidden, shown, at) => {
            to.begin(b"local", *at);
            to.put(b" ");
            str_decs(to, hidden);
            to.put(b" in ");
            str_decs(to, shown);
            to.put(b" end");
        }
        FullStrDec::Core(inner) => dec(to, inner),
    }
}

/// Adds `structure`.
#[cycle(full_str)]
pub fn structures(to: &mut Printer, binds: &List<FullStrBind>, at: At) {
    to.begin(b"structure", at);
    for bind in binds.as_slice() {
        to.marked(b" ", &bind.name);
        seal(to, &bind.seal);
        to.put(b"=");
        str_exp(to, &bind.body);
    }
}

/// Adds a structure expression: a name, `<declarations>`, a functor with its argument, or one with its signature in
/// braces.
#[cycle(full_str)]
pub fn str_exp(to: &mut Printer, tree: &FullStrExp) {
    match tree {
        FullStrExp::Struct(all, at) => structure(to, all, *at),
        FullStrExp::Named(name, at) => to.long_leaf(name, *at),
        FullStrExp::Transparent(body, given, at) => sealed(to, body.get(), b":", given, *at),
        FullStrExp::Opaque(body, given, at) => sealed(to, body.get(), b":>", given, *at),
        FullStrExp::Functor(name, argument, at) => applied(to, name, argument.get(), *at),
        FullStrExp::FunctorOfDecs(name, all, begin, at) => {
            applied_to_decs(to, name, all, *begin, *at)
        }
        FullStrExp::Within(all, body, at) => {
            to.begin(b"let", *at);
            to.put(b" ");
            str_decs(to, all);
            to.put(b" in ");
            str_exp(to, body.get());
            to.put(b" end");
        }
    }
}

/// Adds `struct`.
#[cycle(full_str)]
fn structure(to: &mut Printer, all: &List<FullStrDec>, at: At) {
    to.open(b"<", at);
    str_decs(to, all);
    to.put(b">")
}

/// Adds a structure expression with its signature.
#[cycle(full_str)]
fn sealed(to: &mut Printer, body: &FullStrExp, mark: &[u8], given: &FullSigExp, at: At) {
    to.open(b"{", at);
    str_exp(to, body);
    to.put(mark);
    sig(to, given);
    to.put(b"}")
}

/// Adds a functor with its argument.
#[cycle(full_str)]
fn applied(to: &mut Printer, name: &Name, argument: &FullStrExp, at: At) {
    to.leaf(name, at);
    to.put(b"(");
    str_exp(to, argument);
    to.put(b")")
}

/// Adds a functor with declarations as its argument.
#[cycle(full_str)]
fn applied_to_decs(to: &mut Printer, name: &Name, all: &List<FullStrDec>, begin: At, at: At) {
    to.leaf(name, at);
    to.put(b"(");
    structure(to, all, begin);
    to.put(b")")
}
