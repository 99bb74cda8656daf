//! The declarations of a unit's top level, and a whole unit, as they are written.

use crate::full_sig::{FullSeal, FullSigBind, FullSigExp, FullSpec};
use crate::full_str::{FullStrBind, FullStrExp};
use crate::name::{At, Name};
use cm_base::{List, Text};

/// A declaration of the top level as it is written. Semicolons leave no trace.
#[derive(Drop)]
pub enum FullTopDec {
    Structures(List<FullStrBind>, At),
    Signatures(List<FullSigBind>, At),
    Functors(List<FullFunctorBind>, At),
    Funsigs(List<FullFunsigBind>, At),
}

/// What a functor takes: a structure of some name, or whatever fits a specification.
#[derive(Drop)]
pub enum FullParam {
    Named(Name, FullSigExp),
    Spec(List<FullSpec>, At),
}

/// A functor, with the signature that its result is given.
#[derive(Drop)]
pub struct FullFunctorBind {
    pub name: Name,
    pub param: FullParam,
    pub seal: Option<FullSeal>,
    pub body: FullStrExp,
}

/// The signature of functors: its name, the parameter's name and signature, and the result's signature.
#[derive(Drop)]
pub struct FullFunsigBind {
    pub name: Name,
    pub param: Name,
    pub param_sig: FullSigExp,
    pub result_sig: FullSigExp,
}

/// A unit as it is written, with the name of its file.
#[derive(Drop)]
pub struct FullUnit {
    pub file: Text,
    pub topdecs: List<FullTopDec>,
}
