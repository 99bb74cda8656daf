//! Units as they are written.

use crate::signatures::{seal, sig, sig_binds, specs};
use crate::structures::{str_exp, structures};
use cm_base::List;
use sml_trees::{
    At, FullFunctorBind, FullFunsigBind, FullParam, FullSigBind, FullTopDec, FullUnit,
};
use tree_printing::Printer;

/// Adds what a functor takes.
fn param(to: &mut Printer, given: &FullParam) {
    match given {
        FullParam::Named(name, found) => {
            to.name(name);
            to.put(b":");
            sig(to, found)
        }
        FullParam::Spec(all, at) => {
            to.open(b"", *at);
            specs(to, all);
        }
    }
}

/// Adds a functor behind a space.
fn functor(to: &mut Printer, bind: &FullFunctorBind) {
    to.marked(b" ", &bind.name);
    to.put(b"(");
    param(to, &bind.param);
    to.put(b")");
    seal(to, &bind.seal);
    to.put(b"=");
    str_exp(to, &bind.body)
}

/// Adds `functor`.
fn functors(to: &mut Printer, all: &List<FullFunctorBind>, at: At) {
    to.begin(b"functor", at);
    for bind in all.as_slice() {
        functor(to, bind);
    }
}

/// Adds a signature of functors behind a space.
fn funsig(to: &mut Printer, bind: &FullFunsigBind) {
    to.marked(b" ", &bind.name);
    to.marked(b"(", &bind.param);
    to.put(b":");
    sig(to, &bind.param_sig);
    to.put(b")=");
    sig(to, &bind.result_sig)
}

/// Adds `funsig`.
fn funsigs(to: &mut Printer, all: &List<FullFunsigBind>, at: At) {
    to.begin(b"funsig", at);
    for bind in all.as_slice() {
        funsig(to, bind);
    }
}

/// Adds `signature`.
fn signatures(to: &mut Printer, all: &List<FullSigBind>, at: At) {
    to.begin(b"signature", at);
    sig_binds(to, all)
}

/// Adds a declaration of the top level.
fn topdec(to: &mut Printer, tree: &FullTopDec) {
    match tree {
        FullTopDec::Structures(all, at) => structures(to, all, *at),
        FullTopDec::Signatures(all, at) => signatures(to, all, *at),
        FullTopDec::Functors(all, at) => functors(to, all, *at),
        FullTopDec::Funsigs(all, at) => funsigs(to, all, *at),
    }
}

/// Adds a unit: its declarations with a bar between them.
pub fn unit(to: &mut Printer, tree: &FullUnit) {
    let mut bar: &[u8] = b"";
    for each in tree.topdecs.as_slice() {
        to.put(bar);
        topdec(to, each);
        bar = b" / ";
    }
}
