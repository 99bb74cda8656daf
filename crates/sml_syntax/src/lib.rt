//! The trees of Standard ML, and the bytes in which the trees of a unit are kept as its code.
#![tactic(auto)]

mod fault;
pub mod laws;
mod parts;
mod read;
mod read_binds;
mod read_exp;
mod read_parts;
mod read_pat;
mod read_sig;
mod read_ty;
mod write;
mod write_exp;
mod write_pat;
mod write_sig;
mod write_ty;

pub use fault::CodeFault;
pub use read::read_code;
pub use read_parts::{Readable, read_byte, read_count, read_list, read_text};
pub use sml_trees::{
    At, BareUnit, ConBind, Constant, DatBind, Dec, ExBind, ExBody, Exp, ExpField, Fixity,
    FullClause, FullConBind, FullDatBind, FullDec, FullExBind, FullExBody, FullExp, FullExpField,
    FullExpItem, FullFunBind, FullFunctorBind, FullFunsigBind, FullHead, FullParam, FullPat,
    FullPatField, FullPatItem, FullRule, FullSeal, FullSigBind, FullSigExp, FullSpec, FullStrBind,
    FullStrDec, FullStrExp, FullTopDec, FullTy, FullTyField, FullTypBind, FullTypDesc, FullUnit,
    FullValBind, FullValDesc, FullWhere, FunBind, FunsigBind, LongName, Name, OpLong, OpName, Pat,
    PatField, Rule, SigBind, SigExp, Spec, StrBind, StrExp, TopDec, Ty, TyField, TypBind, TypDesc,
    ValDesc,
};
pub use write::write_code;
