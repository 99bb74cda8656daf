//! Patterns as they are written.

use crate::full_ty::{FullTy, OpLong, OpName};
use crate::name::{At, Name};
use cm_base::{Boxed, List, Text};

/// A constant.
#[derive(Clone, Debug, Drop)]
pub enum Constant {
    Int(i64),
    Str(Text),
    Char(u8),
}

/// How strongly an infix operator binds, from 0 to 9, and whether from the right.
#[derive(Clone, Copy, Debug, PartialEq, Eq)]
pub struct Fixity {
    pub strength: u8,
    pub right: bool,
}

/// A pattern as it is written.
#[cycle(full_pat)]
#[derive(Drop)]
pub enum FullPat {
    Wild(At),
    Constant(Constant, At),
    Long(OpLong, At),
    Record(List<FullPatField>, At),
    Unit(At),
    /// Two patterns or more.
    Tuple(List<FullPat>, At),
    Paren(Boxed<FullPat>, At),
    List(List<FullPat>, At),
    /// Constructors with their arguments, and infix operators, in the order in which they are written.
    Run(List<FullPatItem>, At),
    Typed(Boxed<FullPat>, FullTy, At),
    /// `name : ty as pat`
    As(OpName, Option<FullTy>, Boxed<FullPat>, At),
}

/// A part of a run: an atomic pattern, or a name that was infix there.
#[cycle(full_pat)]
#[derive(Drop)]
pub enum FullPatItem {
    Atom(FullPat),
    Operator(Name, Fixity),
}

/// A field of a record pattern: `label = pat`, or `name : ty as pat`, whose name is the label.
#[cycle(full_pat)]
#[derive(Drop)]
pub enum FullPatField {
    Labelled(Name, FullPat),
    Named(Name, Option<FullTy>, Option<FullPat>),
}
