//! Signature expressions and specifications.

use crate::name::{At, LongName, Name};
use crate::ty::{ConBind, DatBind, Ty, TypDesc, ValDesc};
use cm_base::{Boxed, List};

/// A signature expression.
#[cycle(sig_exp)]
#[derive(Drop)]
pub enum SigExp {
    /// `sig spec end`, whose specification is always a sequence.
    Sig(Boxed<Spec>, At),
    Named(Name, At),
    /// `sig_exp where type tyvars long = ty`
    Where(Boxed<SigExp>, List<Name>, LongName, Ty, At),
}

/// A specification.
#[cycle(sig_exp)]
#[derive(Drop)]
pub enum Spec {
    Vals(List<ValDesc>, At),
    Types(List<TypDesc>, At),
    Eqtypes(List<TypDesc>, At),
    Datatypes(List<DatBind>, At),
    Replication(Name, LongName, At),
    Exceptions(List<ConBind>, At),
    Structures(List<SigBind>, At),
    Include(Boxed<SigExp>, At),
    Sequence(List<Spec>, At),
}

/// A name with its signature: of a structure that is specified, or of a signature that is bound.
#[cycle(sig_exp)]
#[derive(Drop)]
pub struct SigBind {
    pub name: Name,
    pub sig: SigExp,
}
