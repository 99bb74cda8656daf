//! The heights of whole units.

ghost use Rattle.std.specs.Prelude.{◌≡◌, IfOk, map};
ghost use Rattle.bare_forms.specs.Units.{bare_of};
ghost use Rattle.tree_heights.specs.Heights as heights;
ghost use Rattle.tree_heights.specs.Heights.{highest};
ghost use Rattle.tree_heights.specs.FullUnitHeights as spec;

use crate::height::above;
use crate::height_sig::{sig_binds_height, sig_height, specs_height};
use crate::height_str::{seal_height, str_binds_height, str_height};
use cm_base::NoMemory;
use sml_trees::{FullFunctorBind, FullFunsigBind, FullParam, FullTopDec, FullUnit};
use std::alloc::Global;

/// The height of a functor with this parameter.
fn with_param(param: &FullParam, body: usize) -> Result<usize, NoMemory>
    ensures { IfOk result (λ made. made ≡ spec.with_param param.now body) }
{
    match param {
        FullParam::Named(_, sig) => Ok(sig_height(sig)?.max(body)),
        FullParam::Spec(specs, _) => {
            let sig = above(above(specs_height(specs.as_slice())?)?)?;
            Ok(sig.max(above(2usize.max(body))?))
        }
    }
}

#[tactic(auto, using(crate::proofs::UnitHeights::functor_form))]
fn functor_height(alloc: Global, bind: &FullFunctorBind) -> Result<usize, NoMemory>
    ensures { IfOk result (λ made. made ≡ spec.full_functor bind.now) }
{
    let body = str_height(alloc, &bind.body)?;
    with_param(&bind.param, seal_height(&bind.seal, body)?)
}

fn functors_height(alloc: Global, binds: &[FullFunctorBind]) -> Result<usize, NoMemory>
    ensures { IfOk result (λ made. made ≡ highest (map spec.full_functor binds.now)) }
{
    let mut made = 0usize;
    for bind in binds {
        made = made.max(functor_height(alloc, bind)?);
    }
    Ok(made)
}

#[tactic(auto, using(crate::proofs::UnitHeights::funsig_form))]
fn funsig_height(bind: &FullFunsigBind) -> Result<usize, NoMemory>
    ensures { IfOk result (λ made. made ≡ spec.full_funsig bind.now) }
{
    let param = sig_height(&bind.param_sig)?;
    Ok(param.max(sig_height(&bind.result_sig)?))
}

fn funsigs_height(binds: &[FullFunsigBind]) -> Result<usize, NoMemory>
    ensures { IfOk result (λ made. made ≡ highest (map spec.full_funsig binds.now)) }
{
    let mut made = 0usize;
    for bind in binds {
        made = made.max(funsig_height(bind)?);
    }
    Ok(made)
}

#[tactic(auto, using(crate::proofs::UnitHeights::topdec_forms))]
fn topdec_height(alloc: Global, topdec: &FullTopDec) -> Result<usize, NoMemory>
    ensures { IfOk result (λ made. made ≡ spec.full_topdec topdec.now) }
{
    match topdec {
        FullTopDec::Structures(binds, _) => above(str_binds_height(alloc, binds.as_slice())?),
        FullTopDec::Signatures(binds, _) => above(sig_binds_height(binds.as_slice())?),
        FullTopDec::Functors(binds, _) => above(functors_height(alloc, binds.as_slice())?),
        FullTopDec::Funsigs(binds, _) => above(funsigs_height(binds.as_slice())?),
    }
}

/// The highest of declarations of the top level.
fn topdecs_height(alloc: Global, topdecs: &[FullTopDec]) -> Result<usize, NoMemory>
    ensures { IfOk result (λ made. made ≡ highest (map spec.full_topdec topdecs.now)) }
{
    let mut made = 0usize;
    for topdec in topdecs {
        made = made.max(topdec_height(alloc, topdec)?);
    }
    Ok(made)
}

/// The height of the bare unit of a unit, which isn't made for it: how many of its types, patterns, expressions,
/// declarations, structure and signature expressions, specifications and declarations of the top level stand in one
/// another. A height that a `usize` doesn't hold is want of memory.
#[tactic(auto, using(crate::proofs::UnitHeights::unit_form))]
pub fn unit_height(alloc: Global, unit: &FullUnit) -> Result<usize, NoMemory>
    ensures { IfOk result (λ made. made ≡ heights.unit_height (bare_of unit.now)) }
{
    topdecs_height(alloc, unit.topdecs.as_slice())
}
