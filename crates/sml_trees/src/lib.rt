//! The trees of Standard ML: bare, as a unit is elaborated, and as they are written; and what holds one while another
//! is made.
#![tactic(auto)]

mod exp;
mod full_exp;
mod full_pat;
mod full_sig;
mod full_str;
mod full_ty;
mod full_unit;
pub mod held;
mod name;
mod pat;
mod sig_exp;
mod ty;
mod unit;

pub use exp::{Dec, Exp, ExpField, Rule, StrBind, StrExp};
pub use full_exp::{
    FullClause, FullDec, FullExp, FullExpField, FullExpItem, FullFunBind, FullHead, FullRule,
    FullValBind,
};
pub use full_pat::{Constant, Fixity, FullPat, FullPatField, FullPatItem};
pub use full_sig::{FullSeal, FullSigBind, FullSigExp, FullSpec, FullWhere};
pub use full_str::{FullStrBind, FullStrDec, FullStrExp};
pub use full_ty::{
    FullConBind, FullDatBind, FullExBind, FullExBody, FullTy, FullTyField, FullTypBind,
    FullTypDesc, FullValDesc, OpLong, OpName,
};
pub use full_unit::{FullFunctorBind, FullFunsigBind, FullParam, FullTopDec, FullUnit};
pub use name::{At, LongName, Name};
pub use pat::{Pat, PatField};
pub use sig_exp::{SigBind, SigExp, Spec};
pub use ty::{ConBind, DatBind, ExBind, ExBody, Ty, TyField, TypBind, TypDesc, ValDesc};
pub use unit::{BareUnit, FunBind, FunsigBind, TopDec};
