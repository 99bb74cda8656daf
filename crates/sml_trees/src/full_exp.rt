//! Expressions and declarations of the core as they are written.

use crate::full_pat::{Constant, Fixity, FullPat};
use crate::full_ty::{FullDatBind, FullExBind, FullTy, FullTypBind, OpLong, OpName};
use crate::name::{At, LongName, Name};
use cm_base::{Boxed, List};

/// An expression as it is written.
#[cycle(full_exp)]
#[derive(Drop)]
pub enum FullExp {
    Constant(Constant, At),
    Long(OpLong, At),
    Record(List<FullExpField>, At),
    Unit(At),
    /// Two expressions or more with commas.
    Tuple(List<FullExp>, At),
    /// Two expressions or more with semicolons.
    Sequence(List<FullExp>, At),
    Paren(Boxed<FullExp>, At),
    List(List<FullExp>, At),
    /// The declarations, and the expressions after `in`, one or more.
    Let(List<FullDec>, List<FullExp>, At),
    /// Applications and infix operators in the order in which they are written.
    Run(List<FullExpItem>, At),
    Typed(Boxed<FullExp>, FullTy, At),
    AndAlso(Boxed<FullExp>, Boxed<FullExp>, At),
    OrElse(Boxed<FullExp>, Boxed<FullExp>, At),
    Handle(Boxed<FullExp>, List<FullRule>, At),
    Raise(Boxed<FullExp>, At),
    If(Boxed<FullExp>, Boxed<FullExp>, Boxed<FullExp>, At),
    While(Boxed<FullExp>, Boxed<FullExp>, At),
    Case(Boxed<FullExp>, List<FullRule>, At),
    Fn(List<FullRule>, At),
}

/// A part of a run: an atomic expression, or a name that was infix there.
#[cycle(full_exp)]
#[derive(Drop)]
pub enum FullExpItem {
    Atom(FullExp),
    Operator(Name, Fixity),
}

/// A field of a record.
#[cycle(full_exp)]
#[derive(Drop)]
pub struct FullExpField {
    pub label: Name,
    pub exp: FullExp,
}

/// `pat => exp`
#[cycle(full_exp)]
#[derive(Drop)]
pub struct FullRule {
    pub pat: FullPat,
    pub exp: FullExp,
    pub at: At,
}

/// A declaration of the core as it is written. Semicolons leave no trace.
#[cycle(full_exp)]
#[derive(Drop)]
pub enum FullDec {
    Val(List<Name>, List<FullValBind>, At),
    Fun(List<Name>, List<FullFunBind>, At),
    Types(List<FullTypBind>, At),
    Datatypes(List<FullDatBind>, At),
    Replication(Name, LongName, At),
    Exceptions(List<FullExBind>, At),
    Local(List<FullDec>, List<FullDec>, At),
    Open(List<LongName>, At),
    /// `infix`, with the digit where one is written.
    Infix(Option<u8>, List<Name>, At),
    Infixr(Option<u8>, List<Name>, At),
    Nonfix(List<Name>, At),
}

/// `pat = exp` of a `val`, with the number of times that `rec` stands before it.
#[cycle(full_exp)]
#[derive(Drop)]
pub struct FullValBind {
    pub recs: u32,
    pub pat: FullPat,
    pub exp: FullExp,
    pub at: At,
}

/// A function of a `fun`: its clauses, one or more.
#[cycle(full_exp)]
#[derive(Drop)]
pub struct FullFunBind {
    pub clauses: List<FullClause>,
    pub at: At,
}

/// A clause: its head, the type of its result, and its body.
#[cycle(full_exp)]
#[derive(Drop)]
pub struct FullClause {
    pub head: FullHead,
    pub ty: Option<FullTy>,
    pub body: FullExp,
    pub at: At,
}

/// What stands before the `=` of a clause.
#[derive(Drop)]
pub enum FullHead {
    /// The function's name and its arguments, one or more.
    Prefix(OpName, List<FullPat>),
    /// An infix name between its two arguments.
    Infix(FullPat, Name, FullPat),
    /// The same in parentheses, and further arguments.
    ParenInfix(FullPat, Name, FullPat, List<FullPat>),
}
