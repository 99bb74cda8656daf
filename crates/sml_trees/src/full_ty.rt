//! Types as they are written, and the bindings that are made of names and types alone.

use crate::name::{At, LongName, Name};
use cm_base::{Boxed, List};

/// A type as it is written.
#[cycle(full_ty)]
#[derive(Drop)]
pub enum FullTy {
    Var(Name, At),
    Record(List<FullTyField>, At),
    /// A type constructor without argument.
    Con(LongName, At),
    /// A type constructor after its one argument.
    Applied(Boxed<FullTy>, LongName, At),
    /// A type constructor after two arguments or more, in parentheses.
    AppliedAll(List<FullTy>, LongName, At),
    /// Two types or more with `*` between them.
    Tuple(List<FullTy>, At),
    Arrow(Boxed<FullTy>, Boxed<FullTy>, At),
    Paren(Boxed<FullTy>, At),
}

/// A field of a record type.
#[cycle(full_ty)]
#[derive(Drop)]
pub struct FullTyField {
    pub label: Name,
    pub ty: FullTy,
}

/// A name that may have `op` before it.
#[derive(Clone, Debug, Drop)]
pub struct OpName {
    pub op: bool,
    pub name: Name,
}

/// A long identifier that may have `op` before it.
#[derive(Clone, Debug, Drop)]
pub struct OpLong {
    pub op: bool,
    pub long: LongName,
}

/// `tyvars name = ty`
#[derive(Drop)]
pub struct FullTypBind {
    pub tyvars: List<Name>,
    pub name: Name,
    pub ty: FullTy,
}

/// `tyvars name`, or `tyvars name = ty`, of a `type` in a signature.
#[derive(Drop)]
pub struct FullTypDesc {
    pub tyvars: List<Name>,
    pub name: Name,
    pub ty: Option<FullTy>,
}

/// A constructor, or an exception of a signature, which has no `op`.
#[derive(Drop)]
pub struct FullConBind {
    pub name: OpName,
    pub arg: Option<FullTy>,
}

/// A datatype with its constructors.
#[derive(Drop)]
pub struct FullDatBind {
    pub tyvars: List<Name>,
    pub name: Name,
    pub cons: List<FullConBind>,
}

/// What an exception is: without argument, with one, or another exception's copy.
#[derive(Drop)]
pub enum FullExBody {
    Plain,
    Of(FullTy),
    Copy(OpLong),
}

/// An exception that is bound.
#[derive(Drop)]
pub struct FullExBind {
    pub name: OpName,
    pub body: FullExBody,
}

/// `name : ty` in a signature.
#[derive(Drop)]
pub struct FullValDesc {
    pub name: Name,
    pub ty: FullTy,
}
