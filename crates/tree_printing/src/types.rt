//! Bare types, and what is made of names and types alone.

use crate::printer::Printer;
use cm_base::List;
use sml_trees::{
    At, ConBind, DatBind, ExBind, ExBody, LongName, Ty, TyField, TypBind, TypDesc, ValDesc,
};

/// Adds a type: a constructor behind its arguments in `< >`, an arrow with its parts in `[ ]`.
#[cycle(ty)]
pub fn ty(to: &mut Printer, tree: &Ty) {
    match tree {
        Ty::Var(name, at) => to.leaf(name, *at),
        Ty::Record(fields, at) => record(to, fields, *at),
        Ty::Named(args, name, at) => named(to, args, name, *at),
        Ty::Arrow(from, into, at) => {
            to.begin(b"[->", *at);
            marked_ty(to, b" ", from.get());
            marked_ty(to, b" ", into.get());
            to.put(b"]");
        }
    }
}

/// Adds a type behind a mark.
#[cycle(ty)]
pub fn marked_ty(to: &mut Printer, mark: &[u8], tree: &Ty) {
    to.put(mark);
    ty(to, tree)
}

/// Adds a record type, whose fields have a comma each.
#[cycle(ty)]
fn record(to: &mut Printer, fields: &List<TyField>, at: At) {
    to.open(b"{", at);
    for field in fields.as_slice() {
        to.put(field.label.text.as_bytes());
        marked_ty(to, b":", &field.ty);
        to.put(b",");
    }
    to.put(b"}")
}

/// Adds a type constructor, behind its arguments if it has some.
#[cycle(ty)]
fn named(to: &mut Printer, args: &List<Ty>, name: &LongName, at: At) {
    if args.is_empty() {
        to.long_leaf(name, at);
    } else {
        applied(to, args, name, at);
    }
}

/// Adds a type constructor behind its arguments.
#[cycle(ty)]
fn applied(to: &mut Printer, args: &List<Ty>, name: &LongName, at: At) {
    to.open(b"<", at);
    for arg in args.as_slice() {
        ty(to, arg);
        to.put(b" ");
    }
    to.long(name);
    to.put(b">")
}

/// Adds a type behind a mark, if there is one.
pub fn maybe_ty(to: &mut Printer, mark: &[u8], found: &Option<Ty>) {
    match found {
        Some(tree) => marked_ty(to, mark, tree),
        None => {}
    }
}

/// Adds types that are bound, each with a comma, and the closing bracket.
pub fn typ_binds(to: &mut Printer, all: &List<TypBind>) {
    for bind in all.as_slice() {
        to.put(b" ");
        to.tyvars(&bind.tyvars);
        to.name(&bind.name);
        marked_ty(to, b"=", &bind.ty);
        to.put(b",");
    }
    to.put(b"]")
}

/// Adds constructors, each behind a space, and the closing bracket.
pub fn con_binds(to: &mut Printer, all: &List<ConBind>) {
    for con in all.as_slice() {
        to.marked(b" ", &con.name);
        maybe_ty(to, b":", &con.arg);
    }
    to.put(b"]")
}

/// Adds datatypes, each with its constructors in brackets, and the closing bracket.
pub fn dat_binds(to: &mut Printer, all: &List<DatBind>) {
    for bind in all.as_slice() {
        to.put(b" ");
        to.tyvars(&bind.tyvars);
        to.name(&bind.name);
        to.put(b"[");
        con_binds(to, &bind.cons);
    }
    to.put(b"]")
}

/// Adds what an exception is.
fn ex_body(to: &mut Printer, body: &ExBody) {
    match body {
        ExBody::Plain => {}
        ExBody::Of(arg) => marked_ty(to, b":", arg),
        ExBody::Copy(original) => to.marked_long(b"=", original),
    }
}

/// Adds exceptions that are bound, each behind a space, and the closing bracket.
pub fn ex_binds(to: &mut Printer, all: &List<ExBind>) {
    for bind in all.as_slice() {
        to.marked(b" ", &bind.name);
        ex_body(to, &bind.body);
    }
    to.put(b"]")
}

/// Adds the values of a signature, each behind a space, and the closing bracket.
pub fn val_descs(to: &mut Printer, all: &List<ValDesc>) {
    for desc in all.as_slice() {
        to.marked(b" ", &desc.name);
        marked_ty(to, b":", &desc.ty);
    }
    to.put(b"]")
}

/// Adds the types of a signature, each behind its type variables, and the closing bracket.
pub fn typ_descs(to: &mut Printer, all: &List<TypDesc>) {
    for desc in all.as_slice() {
        to.names(&desc.tyvars);
        to.marked(b" ", &desc.name);
    }
    to.put(b"]")
}
