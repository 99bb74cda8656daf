//! Bare units.

use crate::expressions::{str_exp, structures};
use crate::printer::Printer;
use crate::signatures::{sig, sig_binds};
use cm_base::List;
use sml_trees::{At, BareUnit, FunBind, FunsigBind, SigBind, TopDec};

/// Adds `signature`.
fn signatures(to: &mut Printer, all: &List<SigBind>, at: At) {
    to.begin(b"[signature", at);
    sig_binds(to, b"=", all)
}

/// Adds a functor behind a space.
fn functor(to: &mut Printer, bind: &FunBind) {
    to.marked(b" ", &bind.name);
    to.marked(b"(", &bind.param);
    to.put(b":");
    sig(to, &bind.param_sig);
    to.put(b")=");
    str_exp(to, &bind.body)
}

/// Adds `functor`.
fn functors(to: &mut Printer, all: &List<FunBind>, at: At) {
    to.begin(b"[functor", at);
    for bind in all.as_slice() {
        functor(to, bind);
    }
    to.put(b"]")
}

/// Adds a signature of functors behind a space.
fn funsig(to: &mut Printer, bind: &FunsigBind) {
    to.marked(b" ", &bind.name);
    to.marked(b"(", &bind.param);
    to.put(b":");
    sig(to, &bind.param_sig);
    to.put(b")=");
    sig(to, &bind.result_sig)
}

/// Adds `funsig`.
fn funsigs(to: &mut Printer, all: &List<FunsigBind>, at: At) {
    to.begin(b"[funsig", at);
    for bind in all.as_slice() {
        funsig(to, bind);
    }
    to.put(b"]")
}

/// Adds a declaration of the top level.
fn topdec(to: &mut Printer, tree: &TopDec) {
    match tree {
        TopDec::Structures(all, at) => structures(to, all, *at),
        TopDec::Signatures(all, at) => signatures(to, all, *at),
        TopDec::Functors(all, at) => functors(to, all, *at),
        TopDec::Funsigs(all, at) => funsigs(to, all, *at),
    }
}

/// Adds a unit: its declarations, each with a line of its own.
pub fn unit(to: &mut Printer, tree: &BareUnit) {
    for each in tree.topdecs.as_slice() {
        topdec(to, each);
        to.put(b"\n");
    }
}
