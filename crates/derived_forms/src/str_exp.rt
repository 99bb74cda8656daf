//! Structure expressions, and the declarations in them.

ghost use Rattle.std.specs.Prelude.{◌≡◌, IfOk, map};
ghost use Rattle.bare_forms.specs.Expressions as exps;
ghost use Rattle.bare_forms.specs.Structures as spec;

use crate::exp::to_dec;
use bare_forms::held::{appended, with};
use bare_forms::name::{copy_long, copy_name};
use bare_forms::placed::PlacedStr;
use cm_base::{List, NoMemory};
use expression_nodes::part::{
    functor_str, local_dec, opaque_str, struct_of, structures_dec, transparent_str, within_str,
};
use phrase_forms::sig::to_sig;
use sml_trees::held::both;
use sml_trees::{At, Dec, FullSeal, FullStrBind, FullStrDec, FullStrExp, Name, StrBind, StrExp};
use std::alloc::Global;

/// A structure with the signature that it is given.
pub fn sealed(alloc: Global, seal: &Option<FullSeal>, body: PlacedStr) -> Result<StrExp, NoMemory>
    ensures { IfOk result (λ made. made ≡ spec.sealed seal.now body) }
{
    let Some(seal) = seal else {
        return Ok(body.str);
    };
    let at = body.at;
    let (str, sig) = both(body.str, to_sig(alloc, &seal.sig))?;
    if seal.opaque {
        return opaque_str(alloc, at, str, sig);
    }
    transparent_str(alloc, at, str, sig)
}

/// A structure that is bound.
fn str_bind_of(
    alloc: Global,
    name: &Name,
    seal: &Option<FullSeal>,
    body: PlacedStr,
) -> Result<StrBind, NoMemory>
    ensures { IfOk result (λ made. made ≡ spec.str_bind_of name.now seal.now body) }
{
    let body = sealed(alloc, seal, body)?;
    let (body, name) = both(body, copy_name(name))?;
    Ok(StrBind { name, body })
}

/// Where a structure expression is written.
#[tactic(auto, using(bare_forms::proofs::StrLevels::str_forms))]
pub fn place_of_str(str: &FullStrExp) -> At
    ensures { result ≡ (spec.bare_str str.now).at }
{
    match str {
        FullStrExp::Struct(_, at) => *at,
        FullStrExp::Named(_, at) => *at,
        FullStrExp::Transparent(_, _, at) => *at,
        FullStrExp::Opaque(_, _, at) => *at,
        FullStrExp::Functor(_, _, at) => *at,
        FullStrExp::FunctorOfDecs(_, _, _, at) => *at,
        FullStrExp::Within(_, _, at) => *at,
    }
}

/// Declarations one after another.
#[cycle(to_str)]
fn to_str_decs(alloc: Global, at: At, decs: &[FullStrDec]) -> Result<Dec, NoMemory>
    ensures { IfOk result (λ made. made ≡ exps.sequence_dec at (map spec.bare_str_dec decs.now)) }
{
    let mut made = Vec::new(alloc);
    for dec in decs {
        let (before, more) = both(made, to_str_dec(alloc, dec))?;
        made = appended(before, more)?;
    }
    Ok(Dec::Sequence(List::from_vec(made), at))
}

/// What a declaration becomes, none or one.
#[cycle(to_str)]
#[tactic(auto, using(bare_forms::proofs::StrLevels::str_dec_forms))]
fn to_str_dec(alloc: Global, dec: &FullStrDec) -> Result<List<Dec>, NoMemory>
    ensures { IfOk result (λ made. made ≡ (spec.bare_str_dec dec.now).decs) }
{
    match dec {
        FullStrDec::Core(dec) => to_dec(alloc, dec),
        FullStrDec::Structures(binds, at) => {
            structures_dec(alloc, *at, to_str_binds(alloc, binds.as_slice())?)
        }
        FullStrDec::Local(hidden, decs, at) => {
            let hidden = to_str_decs(alloc, *at, hidden.as_slice())?;
            let (hidden, shown) = both(hidden, to_str_decs(alloc, *at, decs.as_slice()))?;
            local_dec(alloc, *at, hidden, shown)
        }
    }
}

/// A structure expression without derived forms.
#[cycle(to_str)]
#[tactic(auto, using(bare_forms::proofs::StrLevels::str_forms))]
pub fn to_str(alloc: Global, str: &FullStrExp) -> Result<StrExp, NoMemory>
    ensures { IfOk result (λ made. made ≡ (spec.bare_str str.now).str) }
{
    match str {
        FullStrExp::Struct(decs, at) => {
            struct_of(alloc, *at, to_str_decs(alloc, *at, decs.as_slice())?)
        }
        FullStrExp::Named(long, at) => Ok(StrExp::Named(copy_long(alloc, long)?, *at)),
        FullStrExp::Transparent(inner, sig, at) => {
            let inner = to_str(alloc, inner.get())?;
            let (inner, sig) = both(inner, to_sig(alloc, sig))?;
            transparent_str(alloc, *at, inner, sig)
        }
        FullStrExp::Opaque(inner, sig, at) => {
            let inner = to_str(alloc, inner.get())?;
            let (inner, sig) = both(inner, to_sig(alloc, sig))?;
            opaque_str(alloc, *at, inner, sig)
        }
        FullStrExp::Functor(name, arg, at) => {
            functor_str(alloc, *at, name, to_str(alloc, arg.get())?)
        }
        FullStrExp::FunctorOfDecs(name, decs, begin, at) => {
            let arg = struct_of(alloc, *begin, to_str_decs(alloc, *begin, decs.as_slice())?)?;
            functor_str(alloc, *at, name, arg)
        }
        FullStrExp::Within(decs, inner, at) => {
            let dec = to_str_decs(alloc, *at, decs.as_slice())?;
            let (dec, body) = both(dec, to_str(alloc, inner.get()))?;
            within_str(alloc, *at, dec, body)
        }
    }
}

#[cycle(to_str)]
pub fn to_str_binds(alloc: Global, binds: &[FullStrBind]) -> Result<List<StrBind>, NoMemory>
    ensures { IfOk result (λ made. made ≡ map spec.bare_str_bind binds.now) }
{
    let mut made = List::new(alloc);
    for bind in binds {
        let (before, bind) = both(made, to_str_bind(alloc, bind))?;
        made = with(before, bind)?;
    }
    Ok(made)
}

#[cycle(to_str)]
#[tactic(auto, using(bare_forms::proofs::StrLevels::str_bind_form))]
fn to_str_bind(alloc: Global, bind: &FullStrBind) -> Result<StrBind, NoMemory>
    ensures { IfOk result (λ made. made ≡ spec.bare_str_bind bind.now) }
{
    let str = to_str(alloc, &bind.body)?;
    let at = place_of_str(&bind.body);
    str_bind_of(alloc, &bind.name, &bind.seal, PlacedStr { at, str })
}
