//! Types, and the bindings that are made of names and types alone.

use crate::name::{At, LongName, Name};
use cm_base::{Boxed, List};

/// A type. A tuple's type is a record's, with the labels `1`, `2` and so on.
#[cycle(ty)]
#[derive(Drop)]
pub enum Ty {
    Var(Name, At),
    Record(List<TyField>, At),
    /// A type constructor and its arguments, which stand before it.
    Named(List<Ty>, LongName, At),
    Arrow(Boxed<Ty>, Boxed<Ty>, At),
}

/// A field of a record type.
#[cycle(ty)]
#[derive(Drop)]
pub struct TyField {
    pub label: Name,
    pub ty: Ty,
}

/// `tyvars name = ty`
#[derive(Drop)]
pub struct TypBind {
    pub tyvars: List<Name>,
    pub name: Name,
    pub ty: Ty,
}

/// A constructor with the type of its argument, or an exception in a signature.
#[derive(Drop)]
pub struct ConBind {
    pub name: Name,
    pub arg: Option<Ty>,
}

/// A datatype with its constructors.
#[derive(Drop)]
pub struct DatBind {
    pub tyvars: List<Name>,
    pub name: Name,
    pub cons: List<ConBind>,
}

/// What an exception is: without argument, with one, or another exception's copy.
#[derive(Drop)]
pub enum ExBody {
    Plain,
    Of(Ty),
    Copy(LongName),
}

/// An exception that is bound.
#[derive(Drop)]
pub struct ExBind {
    pub name: Name,
    pub body: ExBody,
}

/// `name : ty` in a signature.
#[derive(Drop)]
pub struct ValDesc {
    pub name: Name,
    pub ty: Ty,
}

/// `tyvars name` in a signature.
#[derive(Drop)]
pub struct TypDesc {
    pub tyvars: List<Name>,
    pub name: Name,
}
