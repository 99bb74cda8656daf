//! Expressions, declarations and structure expressions.

use crate::name::{At, LongName, Name};
use crate::pat::Pat;
use crate::sig_exp::SigExp;
use crate::ty::{DatBind, ExBind, Ty, TypBind};
use cm_base::{Boxed, List, Text};

/// An expression.
#[cycle(exp)]
#[derive(Drop)]
pub enum Exp {
    Int(i64, At),
    Str(Text, At),
    Char(u8, At),
    Long(LongName, At),
    Record(List<ExpField>, At),
    Let(Boxed<Dec>, Boxed<Exp>, At),
    App(Boxed<Exp>, Boxed<Exp>, At),
    Typed(Boxed<Exp>, Ty, At),
    Handle(Boxed<Exp>, List<Rule>, At),
    Raise(Boxed<Exp>, At),
    Fn(List<Rule>, At),
}

/// A field of a record.
#[cycle(exp)]
#[derive(Drop)]
pub struct ExpField {
    pub label: Name,
    pub exp: Exp,
}

/// A pattern and an expression: `pat => exp` of a match, or `pat = exp` of a `val`.
#[cycle(exp)]
#[derive(Drop)]
pub struct Rule {
    pub pat: Pat,
    pub exp: Exp,
}

/// A declaration.
#[cycle(exp)]
#[derive(Drop)]
pub enum Dec {
    /// The type variables, the bindings, and those after `rec`.
    Val(List<Name>, List<Rule>, List<Rule>, At),
    Types(List<TypBind>, At),
    Datatypes(List<DatBind>, At),
    Replication(Name, LongName, At),
    Exceptions(List<ExBind>, At),
    /// Both sides are always sequences.
    Local(Boxed<Dec>, Boxed<Dec>, At),
    Open(List<LongName>, At),
    Sequence(List<Dec>, At),
    Structures(List<StrBind>, At),
}

/// A structure expression.
#[cycle(exp)]
#[derive(Drop)]
pub enum StrExp {
    /// `struct dec end`, whose declaration is always a sequence.
    Struct(Boxed<Dec>, At),
    Named(LongName, At),
    Transparent(Boxed<StrExp>, SigExp, At),
    Opaque(Boxed<StrExp>, SigExp, At),
    /// A functor with its argument.
    Functor(Name, Boxed<StrExp>, At),
    /// `let dec in str_exp end`, whose declaration is always a sequence.
    Within(Boxed<Dec>, Boxed<StrExp>, At),
}

/// `name = str_exp`
#[cycle(exp)]
#[derive(Drop)]
pub struct StrBind {
    pub name: Name,
    pub body: StrExp,
}
