//! Expressions and declarations of the core as they are written.

use crate::patterns::{constant, operator, pat, pats};
use crate::types::{datatypes, exceptions, marked_ty, maybe_ty, op_leaf, op_name, typ_binds};
use case_files::Part;
use cm_base::List;
use sml_trees::{
    At, FullClause, FullDatBind, FullDec, FullExBind, FullExp, FullExpField, FullExpItem,
    FullFunBind, FullHead, FullPat, FullRule, FullTy, FullTypBind, FullValBind, LongName, Name,
};
use tree_printing::Printer;

/// Adds an expression: its form and its parts in brackets.
#[cycle(full_exp)]
pub fn exp(to: &mut Printer, tree: &FullExp) {
    match tree {
        FullExp::Constant(value, at) => constant(to, value, *at),
        FullExp::Long(name, at) => op_leaf(to, name, *at),
        FullExp::Unit(at) => to.begin(b"()", *at),
        FullExp::Record(fields, at) => record(to, fields, *at),
        FullExp::Tuple(parts, at) => listed(to, b"[,", parts, *at),
        FullExp::Sequence(parts, at) => listed(to, b"[;", parts, *at),
        FullExp::List(parts, at) => listed(to, b"[list", parts, *at),
        FullExp::Paren(inner, at) => paren(to, inner.get(), *at),
        FullExp::Let(bound, body, at) => {
            to.begin(b"[let", *at);
            decs(to, bound);
            to.put(b" in");
            exps(to, body);
        }
        FullExp::Run(items, at) => run(to, items, *at),
        FullExp::Typed(inner, found, at) => typed(to, inner.get(), found, *at),
        FullExp::AndAlso(left, right, at) => {
            to.begin(b"[and", *at);
            spaced(to, left.get());
            spaced(to, right.get());
            to.put(b"]");
        }
        FullExp::OrElse(left, right, at) => {
            to.begin(b"[or", *at);
            spaced(to, left.get());
            spaced(to, right.get());
            to.put(b"]");
        }
        FullExp::While(test, body, at) => {
            to.begin(b"[while", *at);
            spaced(to, test.get());
            spaced(to, body.get());
            to.put(b"]");
        }
        FullExp::Handle(inner, found, at) => {
            to.begin(b"[handle", *at);
            spaced(to, inner.get());
            rules(to, found);
        }
        FullExp::Case(inner, found, at) => {
            to.begin(b"[case", *at);
            spaced(to, inner.get());
            rules(to, found);
        }
        FullExp::Raise(inner, at) => raised(to, inner.get(), *at),
        FullExp::If(test, yes, no, at) => {
            to.begin(b"[if", *at);
            spaced(to, test.get());
            spaced(to, yes.get());
            spaced(to, no.get());
            to.put(b"]");
        }
        FullExp::Fn(rules, at) => function(to, rules, *at),
    }
}

/// Adds an expression behind a space.
#[cycle(full_exp)]
fn spaced(to: &mut Printer, tree: &FullExp) {
    to.put(b" ");
    exp(to, tree)
}

/// Adds expressions, each behind a space, and the closing bracket.
#[cycle(full_exp)]
fn exps(to: &mut Printer, trees: &List<FullExp>) {
    for tree in trees.as_slice() {
        spaced(to, tree);
    }
    to.put(b"]")
}

/// Adds expressions behind a word.
#[cycle(full_exp)]
fn listed(to: &mut Printer, word: &[u8], trees: &List<FullExp>, at: At) {
    to.begin(word, at);
    exps(to, trees)
}

/// Adds an expression in parentheses.
#[cycle(full_exp)]
fn paren(to: &mut Printer, inner: &FullExp, at: At) {
    to.open(b"(", at);
    exp(to, inner);
    to.put(b")")
}

/// Adds a run.
#[cycle(full_exp)]
fn run(to: &mut Printer, items: &List<FullExpItem>, at: At) {
    to.begin(b"[run", at);
    for item in items.as_slice() {
        to.put(b" ");
        run_item(to, item);
    }
    to.put(b"]")
}

/// Adds a part of a run.
#[cycle(full_exp)]
fn run_item(to: &mut Printer, item: &FullExpItem) {
    match item {
        FullExpItem::Atom(tree) => exp(to, tree),
        FullExpItem::Operator(name, fixity) => operator(to, name, *fixity),
    }
}

/// Adds an expression with its type.
#[cycle(full_exp)]
fn typed(to: &mut Printer, inner: &FullExp, found: &FullTy, at: At) {
    to.begin(b"[:", at);
    spaced(to, inner);
    marked_ty(to, b" ", found);
    to.put(b"]")
}

/// Adds `raise`.
#[cycle(full_exp)]
fn raised(to: &mut Printer, inner: &FullExp, at: At) {
    to.begin(b"[raise", at);
    spaced(to, inner);
    to.put(b"]")
}

/// Adds `fn`.
#[cycle(full_exp)]
fn function(to: &mut Printer, found: &List<FullRule>, at: At) {
    to.begin(b"[fn", at);
    rules(to, found)
}

/// Adds a record, whose fields have a comma each.
#[cycle(full_exp)]
fn record(to: &mut Printer, fields: &List<FullExpField>, at: At) {
    to.open(b"{", at);
    for field in fields.as_slice() {
        to.name(&field.label);
        to.put(b"=");
        exp(to, &field.exp);
        to.put(b",");
    }
    to.put(b"}")
}

/// Adds rules, each behind a bar, and the closing bracket.
#[cycle(full_exp)]
fn rules(to: &mut Printer, found: &List<FullRule>) {
    for rule in found.as_slice() {
        to.open(b" | ", rule.at);
        pat(to, &rule.pat);
        to.put(b"=>");
        exp(to, &rule.exp);
    }
    to.put(b"]")
}

/// Adds declarations, each behind a space.
#[cycle(full_exp)]
pub fn decs(to: &mut Printer, trees: &List<FullDec>) {
    for tree in trees.as_slice() {
        to.put(b" ");
        dec(to, tree);
    }
}

/// Adds a declaration of the core: its word and what it binds in brackets.
#[cycle(full_exp)]
pub fn dec(to: &mut Printer, tree: &FullDec) {
    match tree {
        FullDec::Val(tyvars, binds, at) => val_dec(to, tyvars, binds, *at),
        FullDec::Fun(tyvars, binds, at) => fun_dec(to, tyvars, binds, *at),
        FullDec::Local(hidden, shown, at) => {
            to.begin(b"[local", *at);
            decs(to, hidden);
            to.put(b" in");
            decs(to, shown);
            to.put(b"]");
        }
        FullDec::Types(binds, at) => type_dec(to, binds, *at),
        FullDec::Datatypes(binds, at) => datatype_dec(to, binds, *at),
        FullDec::Replication(name, original, at) => replication(to, name, original, *at),
        FullDec::Exceptions(binds, at) => exception_dec(to, binds, *at),
        FullDec::Open(found, at) => open_dec(to, found, *at),
        FullDec::Infix(digit, found, at) => directive(to, b"[infix", *digit, found, *at),
        FullDec::Infixr(digit, found, at) => directive(to, b"[infixr", *digit, found, *at),
        FullDec::Nonfix(found, at) => directive(to, b"[nonfix", None, found, *at),
    }
}

/// Adds `val`.
#[cycle(full_exp)]
fn val_dec(to: &mut Printer, tyvars: &List<Name>, binds: &List<FullValBind>, at: At) {
    to.begin(b"[val", at);
    to.names(tyvars);
    for bind in binds.as_slice() {
        val_bind(to, bind);
    }
    to.put(b"]")
}

/// Adds a binding of a `val`, with a comma.
#[cycle(full_exp)]
fn val_bind(to: &mut Printer, bind: &FullValBind) {
    for _ in 0..bind.recs {
        to.put(b" rec");
    }
    to.part_at(bind.at);
    to.put(b" ");
    pat(to, &bind.pat);
    to.put(b"=");
    exp(to, &bind.exp);
    to.put(b",")
}

/// Adds `fun`, whose functions have a comma each.
#[cycle(full_exp)]
fn fun_dec(to: &mut Printer, tyvars: &List<Name>, binds: &List<FullFunBind>, at: At) {
    to.begin(b"[fun", at);
    to.names(tyvars);
    for bind in binds.as_slice() {
        clauses(to, bind);
        to.put(b",");
    }
    to.put(b"]")
}

/// Adds the clauses of a function, each behind a bar.
#[cycle(full_exp)]
fn clauses(to: &mut Printer, bind: &FullFunBind) {
    to.part_at(bind.at);
    for each in bind.clauses.as_slice() {
        clause(to, each);
    }
}

/// Adds a clause behind a bar.
#[cycle(full_exp)]
fn clause(to: &mut Printer, each: &FullClause) {
    to.open(b" | ", each.at);
    head(to, &each.head);
    maybe_ty(to, b":", &each.ty);
    to.put(b"=");
    exp(to, &each.body)
}

/// Adds the head of a clause.
fn head(to: &mut Printer, found: &FullHead) {
    match found {
        FullHead::Prefix(name, args) => {
            op_name(to, name);
            pats(to, args)
        }
        FullHead::Infix(left, name, right) => between(to, left, name, right),
        FullHead::ParenInfix(left, name, right, args) => {
            to.put(b"(");
            between(to, left, name, right);
            to.put(b")");
            pats(to, args)
        }
    }
}

/// Adds a name between two patterns.
fn between(to: &mut Printer, left: &FullPat, name: &Name, right: &FullPat) {
    pat(to, left);
    to.marked(b" ", name);
    to.put(b" ");
    pat(to, right)
}

/// Adds `type`.
fn type_dec(to: &mut Printer, binds: &List<FullTypBind>, at: At) {
    to.begin(b"[type", at);
    typ_binds(to, binds);
    to.put(b"]")
}

/// Adds `datatype`.
fn datatype_dec(to: &mut Printer, binds: &List<FullDatBind>, at: At) {
    to.begin(b"[datatype", at);
    datatypes(to, binds);
    to.put(b"]")
}

/// Adds a datatype that is another one.
fn replication(to: &mut Printer, name: &Name, original: &LongName, at: At) {
    to.begin(b"[datatype", at);
    to.marked(b" ", name);
    to.marked_long(b"==", original);
    to.put(b"]")
}

/// Adds `exception`.
fn exception_dec(to: &mut Printer, binds: &List<FullExBind>, at: At) {
    to.begin(b"[exception", at);
    exceptions(to, binds);
    to.put(b"]")
}

/// Adds `open`.
fn open_dec(to: &mut Printer, found: &List<LongName>, at: At) {
    to.begin(b"[open", at);
    to.longs(found);
    to.put(b"]")
}

/// Adds a declaration of infix status, with its digit where one is written.
fn directive(to: &mut Printer, word: &[u8], digit: Option<u8>, found: &List<Name>, at: At) {
    to.begin(word, at);
    if let Some(number) = digit {
        to.parts(&[Part::Text(b" "), Part::Number(u64::from(number))]);
    }
    to.names(found);
    to.put(b"]")
}
