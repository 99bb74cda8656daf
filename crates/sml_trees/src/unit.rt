//! The declarations of a unit's top level, and a whole unit.

use crate::exp::{StrBind, StrExp};
use crate::name::{At, Name};
use crate::sig_exp::{SigBind, SigExp};
use cm_base::{List, Text};

/// A declaration of the top level.
#[derive(Drop)]
pub enum TopDec {
    Structures(List<StrBind>, At),
    Signatures(List<SigBind>, At),
    Functors(List<FunBind>, At),
    Funsigs(List<FunsigBind>, At),
}

/// A functor: its name, its parameter's name and signature, and its body.
#[derive(Drop)]
pub struct FunBind {
    pub name: Name,
    pub param: Name,
    pub param_sig: SigExp,
    pub body: StrExp,
}

/// The signature of functors: its name, the parameter's name and signature, and the result's signature.
#[derive(Drop)]
pub struct FunsigBind {
    pub name: Name,
    pub param: Name,
    pub param_sig: SigExp,
    pub result_sig: SigExp,
}

/// A unit as it is elaborated, with the name of its file, which is empty where it was read from code.
#[derive(Drop)]
pub struct BareUnit {
    pub file: Text,
    pub topdecs: List<TopDec>,
}
