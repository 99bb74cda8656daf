//! Signature expressions and specifications as they are written.

use crate::full_ty::{FullConBind, FullDatBind, FullTy, FullTypDesc, FullValDesc};
use crate::name::{At, LongName, Name};
use crate::ty::TypDesc;
use cm_base::{Boxed, List};

/// A signature expression as it is written.
#[cycle(full_sig)]
#[derive(Drop)]
pub enum FullSigExp {
    Sig(List<FullSpec>, At),
    Named(Name, At),
    Where(Boxed<FullSigExp>, List<FullWhere>, At),
}

/// A specification as it is written. Semicolons leave no trace.
#[cycle(full_sig)]
#[derive(Drop)]
pub enum FullSpec {
    Vals(List<FullValDesc>, At),
    Types(List<FullTypDesc>, At),
    Eqtypes(List<TypDesc>, At),
    Datatypes(List<FullDatBind>, At),
    Replication(Name, LongName, At),
    Exceptions(List<FullConBind>, At),
    Structures(List<FullSigBind>, At),
    /// `include` with names of signatures, one or more.
    IncludeNames(List<Name>, At),
    /// `include` with another signature expression.
    Include(Boxed<FullSigExp>, At),
}

/// A name with its signature: of a structure that is specified, or of a signature that is bound.
#[cycle(full_sig)]
#[derive(Drop)]
pub struct FullSigBind {
    pub name: Name,
    pub sig: FullSigExp,
}

/// `type tyvars long = ty` after `where`, or after `and`.
#[derive(Drop)]
pub struct FullWhere {
    pub tyvars: List<Name>,
    pub long: LongName,
    pub ty: FullTy,
    pub at: At,
}

/// The signature that a structure or a functor's result is given: after `:>` where it is opaque, else after `:`.
#[derive(Drop)]
pub struct FullSeal {
    pub opaque: bool,
    pub sig: FullSigExp,
    pub at: At,
}
