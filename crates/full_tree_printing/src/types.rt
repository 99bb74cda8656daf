//! Types as they are written, and what is made of names and types alone.

use cm_base::List;
use sml_trees::{
    At, FullConBind, FullDatBind, FullExBind, FullExBody, FullTy, FullTyField, FullTypBind,
    LongName, OpLong, OpName,
};
use tree_printing::Printer;

/// Adds a type: a constructor behind its arguments in `< >`, a tuple or an arrow with its parts in `[ ]`.
#[cycle(full_ty)]
pub fn ty(to: &mut Printer, tree: &FullTy) {
    match tree {
        FullTy::Var(name, at) => to.leaf(name, *at),
        FullTy::Con(name, at) => to.long_leaf(name, *at),
        FullTy::Record(fields, at) => record(to, fields, *at),
        FullTy::Applied(arg, name, at) => applied(to, arg.get(), name, *at),
        FullTy::AppliedAll(args, name, at) => applied_all(to, args, name, *at),
        FullTy::Tuple(parts, at) => tuple(to, parts, *at),
        FullTy::Arrow(from, into, at) => {
            to.begin(b"[->", *at);
            to.put(b" ");
            ty(to, from.get());
            to.put(b" ");
            ty(to, into.get());
            to.put(b"]");
        }
        FullTy::Paren(inner, at) => paren(to, inner.get(), *at),
    }
}

/// Adds types, each behind a space.
#[cycle(full_ty)]
fn tys(to: &mut Printer, trees: &List<FullTy>) {
    for tree in trees.as_slice() {
        to.put(b" ");
        ty(to, tree);
    }
}

/// Adds a record type, whose fields have a comma each.
#[cycle(full_ty)]
fn record(to: &mut Printer, fields: &List<FullTyField>, at: At) {
    to.open(b"{", at);
    for field in fields.as_slice() {
        to.name(&field.label);
        to.put(b":");
        ty(to, &field.ty);
        to.put(b",");
    }
    to.put(b"}")
}

/// Adds a type constructor behind its argument.
#[cycle(full_ty)]
fn applied(to: &mut Printer, arg: &FullTy, name: &LongName, at: At) {
    to.open(b"<", at);
    ty(to, arg);
    to.marked_long(b" ", name);
    to.put(b">")
}

/// Adds a type constructor behind its arguments.
#[cycle(full_ty)]
fn applied_all(to: &mut Printer, args: &List<FullTy>, name: &LongName, at: At) {
    to.begin(b"<all", at);
    tys(to, args);
    to.marked_long(b" ", name);
    to.put(b">")
}

/// Adds the type of tuples.
#[cycle(full_ty)]
fn tuple(to: &mut Printer, parts: &List<FullTy>, at: At) {
    to.begin(b"[*", at);
    tys(to, parts);
    to.put(b"]")
}

/// Adds a type in parentheses.
#[cycle(full_ty)]
fn paren(to: &mut Printer, inner: &FullTy, at: At) {
    to.open(b"(", at);
    ty(to, inner);
    to.put(b")")
}

/// Adds a type behind a mark, if there is one.
pub fn maybe_ty(to: &mut Printer, mark: &[u8], found: &Option<FullTy>) {
    match found {
        Some(tree) => marked_ty(to, mark, tree),
        None => {}
    }
}

/// Adds a type behind a mark.
pub fn marked_ty(to: &mut Printer, mark: &[u8], tree: &FullTy) {
    to.put(mark);
    ty(to, tree)
}

/// The `op` before a name where it is written.
fn op_word(op: bool) -> &'static [u8] {
    if op { b"op " } else { b"" }
}

/// Adds a name, with `op` before it where it is written.
pub fn op_name(to: &mut Printer, name: &OpName) {
    to.marked(op_word(name.op), &name.name)
}

/// Adds a long name, with `op` before it where it is written.
pub fn op_long(to: &mut Printer, name: &OpLong) {
    to.marked_long(op_word(name.op), &name.long)
}

/// Adds a phrase that is a long name alone, with `op` before it where it is written.
pub fn op_leaf(to: &mut Printer, name: &OpLong, at: At) {
    to.put(op_word(name.op));
    to.long_leaf(&name.long, at)
}

/// Adds types that are bound, each with a comma.
pub fn typ_binds(to: &mut Printer, all: &List<FullTypBind>) {
    for bind in all.as_slice() {
        to.put(b" ");
        to.tyvars(&bind.tyvars);
        to.name(&bind.name);
        marked_ty(to, b"=", &bind.ty);
        to.put(b",");
    }
}

/// Adds constructors, each behind a space.
pub fn cons(to: &mut Printer, all: &List<FullConBind>) {
    for con in all.as_slice() {
        to.put(b" ");
        op_name(to, &con.name);
        maybe_ty(to, b":", &con.arg);
    }
}

/// Adds datatypes, each with its constructors in brackets.
pub fn datatypes(to: &mut Printer, all: &List<FullDatBind>) {
    for bind in all.as_slice() {
        to.put(b" ");
        to.tyvars(&bind.tyvars);
        to.name(&bind.name);
        to.put(b"[");
        cons(to, &bind.cons);
        to.put(b"]");
    }
}

/// Adds what an exception is.
fn ex_body(to: &mut Printer, body: &FullExBody) {
    match body {
        FullExBody::Plain => {}
        FullExBody::Of(arg) => marked_ty(to, b":", arg),
        FullExBody::Copy(original) => {
            to.put(b"=");
            op_long(to, original)
        }
    }
}

/// Adds exceptions that are bound, each behind a space.
pub fn exceptions(to: &mut Printer, all: &List<FullExBind>) {
    for bind in all.as_slice() {
        to.put(b" ");
        op_name(to, &bind.name);
        ex_body(to, &bind.body);
    }
}
