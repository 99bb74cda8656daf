//! The heights of structure expressions and of the declarations in them.

ghost use Rattle.std.specs.Prelude.{◌≡◌, IfOk, map};
ghost use Rattle.tree_heights.specs.Heights.{highest};
ghost use Rattle.tree_heights.specs.FullUnitHeights as spec;

use crate::height::above;
use crate::height_exp::dec_height;
use crate::height_sig::sig_height;
use cm_base::NoMemory;
use sml_trees::{FullSeal, FullStrBind, FullStrDec, FullStrExp};
use std::alloc::Global;

/// A structure with the signature that it is given.
pub fn seal_height(seal: &Option<FullSeal>, body: usize) -> Result<usize, NoMemory>
    ensures { IfOk result (λ made. made ≡ spec.seal_height seal.now body) }
{
    match seal {
        None => Ok(body),
        Some(seal) => above(body.max(sig_height(&seal.sig)?)),
    }
}

/// The highest of declarations.
#[cycle(str_height)]
fn str_decs_height(alloc: Global, decs: &[FullStrDec]) -> Result<usize, NoMemory>
    ensures { IfOk result (λ made. made ≡ highest (map spec.full_str_dec decs.now)) }
{
    let mut made = 0usize;
    for dec in decs {
        made = made.max(str_dec_height(alloc, dec)?);
    }
    Ok(made)
}

/// The height of what a declaration becomes.
#[cycle(str_height)]
#[tactic(auto, using(crate::proofs::StrHeights::str_dec_forms))]
fn str_dec_height(alloc: Global, dec: &FullStrDec) -> Result<usize, NoMemory>
    ensures { IfOk result (λ made. made ≡ spec.full_str_dec dec.now) }
{
    match dec {
        FullStrDec::Core(dec) => dec_height(alloc, dec),
        FullStrDec::Structures(binds, _) => above(str_binds_height(alloc, binds.as_slice())?),
        FullStrDec::Local(hidden, decs, _) => {
            let hidden = above(str_decs_height(alloc, hidden.as_slice())?)?;
            let decs = above(str_decs_height(alloc, decs.as_slice())?)?;
            above(hidden.max(decs))
        }
    }
}

/// The height of what a structure expression becomes.
#[cycle(str_height)]
#[tactic(auto, using(crate::proofs::StrHeights::str_forms))]
pub fn str_height(alloc: Global, str: &FullStrExp) -> Result<usize, NoMemory>
    ensures { IfOk result (λ made. made ≡ spec.full_str str.now) }
{
    match str {
        FullStrExp::Struct(decs, _) => above(above(str_decs_height(alloc, decs.as_slice())?)?),
        FullStrExp::Named(_, _) => Ok(1),
        FullStrExp::Transparent(inner, sig, _) => {
            let inner = str_height(alloc, inner.get())?;
            above(inner.max(sig_height(sig)?))
        }
        FullStrExp::Opaque(inner, sig, _) => {
            let inner = str_height(alloc, inner.get())?;
            above(inner.max(sig_height(sig)?))
        }
        FullStrExp::Functor(_, arg, _) => above(str_height(alloc, arg.get())?),
        FullStrExp::FunctorOfDecs(_, decs, _, _) => {
            above(above(above(str_decs_height(alloc, decs.as_slice())?)?)?)
        }
        FullStrExp::Within(decs, inner, _) => {
            let decs = above(str_decs_height(alloc, decs.as_slice())?)?;
            above(decs.max(str_height(alloc, inner.get())?))
        }
    }
}

#[cycle(str_height)]
#[tactic(auto, using(crate::proofs::StrHeights::str_bind_form))]
fn str_bind_height(alloc: Global, bind: &FullStrBind) -> Result<usize, NoMemory>
    ensures { IfOk result (λ made. made ≡ spec.full_str_bind bind.now) }
{
    let body = str_height(alloc, &bind.body)?;
    seal_height(&bind.seal, body)
}

#[cycle(str_height)]
pub fn str_binds_height(alloc: Global, binds: &[FullStrBind]) -> Result<usize, NoMemory>
    ensures { IfOk result (λ made. made ≡ highest (map spec.full_str_bind binds.now)) }
{
    let mut made = 0usize;
    for bind in binds {
        made = made.max(str_bind_height(alloc, bind)?);
    }
    Ok(made)
}
