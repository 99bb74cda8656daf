//! Bare signature expressions and specifications.

use crate::printer::Printer;
use crate::types::{con_binds, dat_binds, marked_ty, typ_descs, val_descs};
use cm_base::List;
use sml_trees::{
    At, ConBind, DatBind, LongName, Name, SigBind, SigExp, Spec, Ty, TypDesc, ValDesc,
};

/// Adds a signature expression.
#[cycle(sig_exp)]
pub fn sig(to: &mut Printer, tree: &SigExp) {
    match tree {
        SigExp::Named(name, at) => to.leaf(name, *at),
        SigExp::Sig(body, at) => sig_of(to, body.get(), *at),
        SigExp::Where(inner, tyvars, name, found, at) => refined(
            to,
            inner.get(),
            tyvars,
            name,
            found,
            *at,
        ),
    }
}

/// Adds `sig`.
#[cycle(sig_exp)]
fn sig_of(to: &mut Printer, body: &Spec, at: At) {
    to.begin(b"[sig", at);
    to.put(b" ");
    spec(to, body);
    to.put(b"]")
}

/// Adds a signature with its `where type`.
#[cycle(sig_exp)]
fn refined(
    to: &mut Printer,
    inner: &SigExp,
    tyvars: &List<Name>,
    name: &LongName,
    found: &Ty,
    at: At,
) {
    to.begin(b"[where", at);
    to.put(b" ");
    sig(to, inner);
    to.names(tyvars);
    to.marked_long(b" ", name);
    marked_ty(to, b"=", found);
    to.put(b"]")
}

/// Adds names with their signatures, each behind a space, and the closing bracket.
#[cycle(sig_exp)]
pub fn sig_binds(to: &mut Printer, mark: &[u8], all: &List<SigBind>) {
    for bind in all.as_slice() {
        to.marked(b" ", &bind.name);
        to.put(mark);
        sig(to, &bind.sig);
    }
    to.put(b"]")
}

/// Adds a specification.
#[cycle(sig_exp)]
fn spec(to: &mut Printer, tree: &Spec) {
    match tree {
        Spec::Vals(all, at) => vals(to, all, *at),
        Spec::Types(all, at) => types(to, b"[type", all, *at),
        Spec::Eqtypes(all, at) => types(to, b"[eqtype", all, *at),
        Spec::Datatypes(all, at) => datatypes(to, all, *at),
        Spec::Replication(name, original, at) => replication(to, name, original, *at),
        Spec::Exceptions(all, at) => exceptions(to, all, *at),
        Spec::Structures(all, at) => structures(to, all, *at),
        Spec::Include(inner, at) => include(to, inner.get(), *at),
        Spec::Sequence(all, at) => sequence(to, all, *at),
    }
}

/// Adds `val`.
fn vals(to: &mut Printer, all: &List<ValDesc>, at: At) {
    to.begin(b"[val", at);
    val_descs(to, all)
}

/// Adds `type` or `eqtype`.
fn types(to: &mut Printer, word: &[u8], all: &List<TypDesc>, at: At) {
    to.begin(word, at);
    typ_descs(to, all)
}

/// Adds `datatype`.
fn datatypes(to: &mut Printer, all: &List<DatBind>, at: At) {
    to.begin(b"[datatype", at);
    dat_binds(to, all)
}

/// Adds a datatype that is another one.
pub fn replication(to: &mut Printer, name: &Name, original: &LongName, at: At) {
    to.begin(b"[datatype", at);
    to.marked(b" ", name);
    to.marked_long(b"==", original);
    to.put(b"]")
}

/// Adds `exception`.
fn exceptions(to: &mut Printer, all: &List<ConBind>, at: At) {
    to.begin(b"[exception", at);
    con_binds(to, all)
}

/// Adds `structure`.
#[cycle(sig_exp)]
fn structures(to: &mut Printer, all: &List<SigBind>, at: At) {
    to.begin(b"[structure", at);
    sig_binds(to, b":", all)
}

/// Adds `include`.
#[cycle(sig_exp)]
fn include(to: &mut Printer, inner: &SigExp, at: At) {
    to.begin(b"[include", at);
    to.put(b" ");
    sig(to, inner);
    to.put(b"]")
}

/// Adds specifications, each with a semicolon, in `< >`.
#[cycle(sig_exp)]
fn sequence(to: &mut Printer, all: &List<Spec>, at: At) {
    to.open(b"<", at);
    for each in all.as_slice() {
        spec(to, each);
        to.put(b";");
    }
    to.put(b">")
}
