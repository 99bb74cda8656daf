//! Whole units.

ghost use Rattle.std.specs.Prelude.{◌≡◌, ◌∷◌, [], IfOk, map};
ghost use Rattle.bare_forms.specs.Patterns.{long_at};
ghost use Rattle.bare_forms.specs.Structures as strs;
ghost use Rattle.bare_forms.specs.Units as spec;
ghost use Rattle.sml_trees.specs.declared.exp.Dec.TheVariants as dec;
ghost use Rattle.sml_trees.specs.declared.full_unit.FullParam.TheVariants as full;

use crate::str_exp::{place_of_str, sealed, to_str, to_str_binds};
use bare_forms::held::{one, with};
use bare_forms::name::{copy_name, long_of_text};
use bare_forms::placed::PlacedStr;
use cm_base::{List, NoMemory, Text};
use expression_nodes::part::within_str;
use phrase_forms::sig::{sig_of, to_sig, to_sig_binds, to_specs};
use sml_trees::held::both;
use sml_trees::{
    At, BareUnit, Dec, FullFunctorBind, FullFunsigBind, FullParam, FullSigExp, FullSpec,
    FullTopDec, FullUnit, FunBind, FunsigBind, Name, SigExp, StrExp, TopDec,
};
use std::alloc::Global;

/// `open %S`, alone in a sequence.
fn open_param(alloc: Global, at: At) -> Result<Dec, NoMemory>
    ensures { IfOk result (λ made. made ≡ dec.Sequence (dec.Open (long_at at spec.param_text ∷ []) at ∷ []) at) }
{
    let longs = one(alloc, long_of_text(alloc, at, b"%S")?)?;
    let decs = one(alloc, Dec::Open(longs, at))?;
    Ok(Dec::Sequence(decs, at))
}

/// The body of a functor with the signature that it is given.
fn body_of(alloc: Global, bind: &FullFunctorBind) -> Result<StrExp, NoMemory>
    ensures { IfOk result (λ made. made ≡ strs.sealed bind.now.seal (strs.bare_str bind.now.body)) }
{
    let at = place_of_str(&bind.body);
    let str = to_str(alloc, &bind.body)?;
    sealed(alloc, &bind.seal, PlacedStr { at, str })
}

/// `let open %S in body end`
fn opened_body(alloc: Global, bind: &FullFunctorBind) -> Result<StrExp, NoMemory>
    ensures { IfOk result (λ made. made ≡
        spec.opening (strs.bare_str bind.now.body).at (strs.sealed bind.now.seal (strs.bare_str bind.now.body))) }
{
    let at = place_of_str(&bind.body);
    let (open, body) = both(open_param(alloc, at)?, body_of(alloc, bind))?;
    within_str(alloc, at, open, body)
}

/// `sig specs end`
fn sig_of_specs(alloc: Global, at: At, specs: &[FullSpec]) -> Result<SigExp, NoMemory>
    ensures { IfOk result (λ made. made ≡ spec.spec_sig at specs.now) }
{
    sig_of(alloc, at, to_specs(alloc, specs)?)
}

/// A functor of a named structure.
fn named(
    alloc: Global,
    bind: &FullFunctorBind,
    param: &Name,
    sig: &FullSigExp,
) -> Result<FunBind, NoMemory>
    ensures { IfOk result (λ made. made ≡ spec.functor_of bind.now (full.Named param.now sig.now)) }
{
    let name = copy_name(&bind.name)?;
    let param = copy_name(param)?;
    let (param_sig, body) = both(to_sig(alloc, sig)?, body_of(alloc, bind))?;
    Ok(FunBind {
        name,
        param,
        param_sig,
        body,
    })
}

/// A functor of whatever fits a specification.
fn specified(
    alloc: Global,
    bind: &FullFunctorBind,
    specs: &[FullSpec],
    at: At,
) -> Result<FunBind, NoMemory>
    ensures { IfOk result (λ made. made ≡ spec.functor_of bind.now (full.Spec specs.now at)) }
{
    let name = copy_name(&bind.name)?;
    let param = Name {
        text: Text::from_bytes(alloc, b"%S")?,
        line: at.line,
        col: at.col,
    };
    let (param_sig, body) = both(sig_of_specs(alloc, at, specs)?, opened_body(alloc, bind))?;
    Ok(FunBind {
        name,
        param,
        param_sig,
        body,
    })
}

/// A functor without derived forms.
fn to_functor(alloc: Global, bind: &FullFunctorBind) -> Result<FunBind, NoMemory>
    ensures { IfOk result (λ made. made ≡ spec.bare_functor bind.now) }
{
    match &bind.param {
        FullParam::Named(name, sig) => named(alloc, bind, name, sig),
        FullParam::Spec(specs, at) => specified(alloc, bind, specs.as_slice(), *at),
    }
}

fn to_functors(alloc: Global, binds: &[FullFunctorBind]) -> Result<List<FunBind>, NoMemory>
    ensures { IfOk result (λ made. made ≡ map spec.bare_functor binds.now) }
{
    let mut made = List::new(alloc);
    for bind in binds {
        let (before, bind) = both(made, to_functor(alloc, bind))?;
        made = with(before, bind)?;
    }
    Ok(made)
}

/// A signature of a functor without derived forms.
fn to_funsig(alloc: Global, bind: &FullFunsigBind) -> Result<FunsigBind, NoMemory>
    ensures { IfOk result (λ made. made ≡ spec.bare_funsig bind.now) }
{
    let name = copy_name(&bind.name)?;
    let param = copy_name(&bind.param)?;
    let param_sig = to_sig(alloc, &bind.param_sig)?;
    let (param_sig, result_sig) = both(param_sig, to_sig(alloc, &bind.result_sig))?;
    Ok(FunsigBind {
        name,
        param,
        param_sig,
        result_sig,
    })
}

fn to_funsigs(alloc: Global, binds: &[FullFunsigBind]) -> Result<List<FunsigBind>, NoMemory>
    ensures { IfOk result (λ made. made ≡ map spec.bare_funsig binds.now) }
{
    let mut made = List::new(alloc);
    for bind in binds {
        let (before, bind) = both(made, to_funsig(alloc, bind))?;
        made = with(before, bind)?;
    }
    Ok(made)
}

/// A declaration of the top level without derived forms.
fn to_topdec(alloc: Global, topdec: &FullTopDec) -> Result<TopDec, NoMemory>
    ensures { IfOk result (λ made. made ≡ spec.bare_topdec topdec.now) }
{
    match topdec {
        FullTopDec::Structures(binds, at) => {
            Ok(TopDec::Structures(to_str_binds(alloc, binds.as_slice())?, *at))
        }
        FullTopDec::Signatures(binds, at) => {
            Ok(TopDec::Signatures(to_sig_binds(alloc, binds.as_slice())?, *at))
        }
        FullTopDec::Functors(binds, at) => {
            Ok(TopDec::Functors(to_functors(alloc, binds.as_slice())?, *at))
        }
        FullTopDec::Funsigs(binds, at) => {
            Ok(TopDec::Funsigs(to_funsigs(alloc, binds.as_slice())?, *at))
        }
    }
}

fn to_topdecs(alloc: Global, topdecs: &[FullTopDec]) -> Result<List<TopDec>, NoMemory>
    ensures { IfOk result (λ made. made ≡ map spec.bare_topdec topdecs.now) }
{
    let mut made = List::new(alloc);
    for topdec in topdecs {
        let (before, topdec) = both(made, to_topdec(alloc, topdec))?;
        made = with(before, topdec)?;
    }
    Ok(made)
}

/// A unit without derived forms.
pub fn to_unit(alloc: Global, unit: &FullUnit) -> Result<BareUnit, NoMemory>
    ensures { IfOk result (λ made. made ≡ spec.bare_of unit.now) }
{
    let topdecs = to_topdecs(alloc, unit.topdecs.as_slice())?;
    let (topdecs, file) = both(topdecs, unit.file.copy())?;
    Ok(BareUnit { file, topdecs })
}
