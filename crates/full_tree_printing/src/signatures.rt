//! Signature expressions and specifications as they are written.

use crate::types::{cons, datatypes, marked_ty, maybe_ty};
use cm_base::List;
use sml_trees::{
    At, FullConBind, FullDatBind, FullSeal, FullSigBind, FullSigExp, FullSpec, FullTypDesc,
    FullValDesc, FullWhere, LongName, Name, TypDesc,
};
use tree_printing::Printer;

/// Adds a signature expression: a name, specifications in brackets, or one with types behind a bar.
#[cycle(full_sig)]
pub fn sig(to: &mut Printer, tree: &FullSigExp) {
    match tree {
        FullSigExp::Named(name, at) => to.leaf(name, *at),
        FullSigExp::Sig(all, at) => sig_of(to, all, *at),
        FullSigExp::Where(inner, types, at) => refined(to, inner.get(), types, *at),
    }
}

/// Adds `sig`.
#[cycle(full_sig)]
fn sig_of(to: &mut Printer, all: &List<FullSpec>, at: At) {
    to.open(b"[", at);
    specs(to, all);
    to.put(b"]")
}

/// Adds a signature with its `where type`.
#[cycle(full_sig)]
fn refined(to: &mut Printer, inner: &FullSigExp, types: &List<FullWhere>, at: At) {
    to.open(b"{", at);
    sig(to, inner);
    to.put(b" |");
    wheres(to, types);
    to.put(b"}")
}

/// Adds types behind `where`, each behind a space.
fn wheres(to: &mut Printer, all: &List<FullWhere>) {
    for each in all.as_slice() {
        to.open(b" ", each.at);
        to.tyvars(&each.tyvars);
        to.long(&each.long);
        marked_ty(to, b"=", &each.ty);
    }
}

/// Adds names with their signatures, each behind a space.
#[cycle(full_sig)]
pub fn sig_binds(to: &mut Printer, all: &List<FullSigBind>) {
    for bind in all.as_slice() {
        to.marked(b" ", &bind.name);
        to.put(b":");
        sig(to, &bind.sig);
    }
}

/// Adds specifications, each with a semicolon.
#[cycle(full_sig)]
pub fn specs(to: &mut Printer, all: &List<FullSpec>) {
    for each in all.as_slice() {
        spec(to, each);
        to.put(b";");
    }
}

/// Adds a specification.
#[cycle(full_sig)]
fn spec(to: &mut Printer, tree: &FullSpec) {
    match tree {
        FullSpec::Vals(all, at) => vals(to, all, *at),
        FullSpec::Types(all, at) => types(to, all, *at),
        FullSpec::Eqtypes(all, at) => eqtypes(to, all, *at),
        FullSpec::Datatypes(all, at) => datatype_spec(to, all, *at),
        FullSpec::Replication(name, original, at) => replication(to, name, original, *at),
        FullSpec::Exceptions(all, at) => exceptions(to, all, *at),
        FullSpec::Structures(all, at) => structures(to, all, *at),
        FullSpec::IncludeNames(all, at) => include_names(to, all, *at),
        FullSpec::Include(inner, at) => include(to, inner.get(), *at),
    }
}

/// Adds `val`.
fn vals(to: &mut Printer, all: &List<FullValDesc>, at: At) {
    to.begin(b"val", at);
    for desc in all.as_slice() {
        to.marked(b" ", &desc.name);
        marked_ty(to, b":", &desc.ty);
    }
}

/// Adds `type`.
fn types(to: &mut Printer, all: &List<FullTypDesc>, at: At) {
    to.begin(b"type", at);
    for desc in all.as_slice() {
        to.names(&desc.tyvars);
        to.marked(b" ", &desc.name);
        maybe_ty(to, b"=", &desc.ty);
    }
}

/// Adds `eqtype`.
fn eqtypes(to: &mut Printer, all: &List<TypDesc>, at: At) {
    to.begin(b"eqtype", at);
    for desc in all.as_slice() {
        to.names(&desc.tyvars);
        to.marked(b" ", &desc.name);
    }
}

/// Adds `datatype`.
fn datatype_spec(to: &mut Printer, all: &List<FullDatBind>, at: At) {
    to.begin(b"datatype", at);
    datatypes(to, all)
}

/// Adds a datatype that is another one.
fn replication(to: &mut Printer, name: &Name, original: &LongName, at: At) {
    to.begin(b"datatype", at);
    to.marked(b" ", name);
    to.marked_long(b"==", original)
}

/// Adds `exception`.
fn exceptions(to: &mut Printer, all: &List<FullConBind>, at: At) {
    to.begin(b"exception", at);
    cons(to, all)
}

/// Adds `structure`.
#[cycle(full_sig)]
fn structures(to: &mut Printer, all: &List<FullSigBind>, at: At) {
    to.begin(b"structure", at);
    sig_binds(to, all)
}

/// Adds `include` with names.
fn include_names(to: &mut Printer, all: &List<Name>, at: At) {
    to.begin(b"include", at);
    to.names(all)
}

/// Adds `include` with another signature expression.
#[cycle(full_sig)]
fn include(to: &mut Printer, inner: &FullSigExp, at: At) {
    to.begin(b"include", at);
    to.put(b"=");
    sig(to, inner)
}

/// Adds a signature behind its mark, if there is one.
pub fn seal(to: &mut Printer, given: &Option<FullSeal>) {
    match given {
        Some(found) => {
            to.open(if found.opaque { b":>" } else { b":" }, found.at);
            sig(to, &found.sig)
        }
        None => {}
    }
}
