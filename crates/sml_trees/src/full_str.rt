//! Structure expressions, and the declarations that stand in them, as they are written.

use crate::full_exp::FullDec;
use crate::full_sig::{FullSeal, FullSigExp};
use crate::name::{At, LongName, Name};
use cm_base::{Boxed, List};

/// A declaration in a structure as it is written: one of the core, or one that may hold structures. A `local` in a
/// structure is always `Local`, also where both of its sides are of the core. Semicolons leave no trace.
#[cycle(full_str)]
#[derive(Drop)]
pub enum FullStrDec {
    Core(FullDec),
    Structures(List<FullStrBind>, At),
    Local(List<FullStrDec>, List<FullStrDec>, At),
}

/// A structure expression as it is written.
#[cycle(full_str)]
#[derive(Drop)]
pub enum FullStrExp {
    Struct(List<FullStrDec>, At),
    Named(LongName, At),
    Transparent(Boxed<FullStrExp>, FullSigExp, At),
    Opaque(Boxed<FullStrExp>, FullSigExp, At),
    /// A functor with a structure expression as its argument.
    Functor(Name, Boxed<FullStrExp>, At),
    /// A functor with declarations as its argument, with the place of their first word, a semicolon too (where there is
    /// none, that of the functor), and the place of the whole.
    FunctorOfDecs(Name, List<FullStrDec>, At, At),
    Within(List<FullStrDec>, Boxed<FullStrExp>, At),
}

/// A structure that is bound, with the signature that it is given.
#[cycle(full_str)]
#[derive(Drop)]
pub struct FullStrBind {
    pub name: Name,
    pub seal: Option<FullSeal>,
    pub body: FullStrExp,
}
