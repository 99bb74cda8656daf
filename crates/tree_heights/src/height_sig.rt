//! The heights of signatures and specifications.

ghost use Rattle.std.specs.Prelude.{◌≡◌, IfOk, map};
ghost use Rattle.bare_forms.specs.Signatures.{has_type};
ghost use Rattle.tree_heights.specs.Heights.{highest};
ghost use Rattle.tree_heights.specs.FullSigHeights as spec;

use crate::height::{above, highest_of};
use crate::height_ty::ty_height;
use cm_base::NoMemory;
use sml_trees::{FullSigBind, FullSigExp, FullSpec, FullTy, FullTypDesc, FullWhere, Name};

/// A signature with types for names of it, the first innermost.
fn where_height(inner: usize, wheres: &[FullWhere]) -> Result<usize, NoMemory>
    ensures { IfOk result (λ made. made ≡ spec.where_height inner wheres.now) }
{
    let mut made = inner;
    for each in wheres {
        made = above(made.max(ty_height(&each.ty)?))?;
    }
    Ok(made)
}

/// The specification of one type, which may stand for another.
fn single_height(ty: &Option<FullTy>) -> Result<usize, NoMemory>
    ensures { IfOk result (λ made. made ≡ spec.single_height ty.now) }
{
    match ty {
        None => Ok(1),
        Some(ty) => above(above(3usize.max(ty_height(ty)?))?),
    }
}

/// The specifications of types one by one.
fn singles_height(descs: &[FullTypDesc]) -> Result<usize, NoMemory>
    ensures { IfOk result (λ made. made ≡ highest (map spec.desc_height descs.now)) }
{
    let mut made = 0usize;
    for desc in descs {
        made = made.max(single_height(&desc.ty)?);
    }
    Ok(made)
}

/// Whether one of the types stands for another.
fn stand_for_others(descs: &[FullTypDesc]) -> bool
    ensures { result ≡ has_type descs.now }
{
    for desc in descs {
        if let Some(_) = &desc.ty {
            return true;
        }
    }
    false
}

/// The specification of types.
fn types_height(descs: &[FullTypDesc]) -> Result<usize, NoMemory>
    ensures { IfOk result (λ made. made ≡ spec.types_height descs.now) }
{
    if stand_for_others(descs) {
        return singles_height(descs);
    }
    Ok(1)
}

/// `include` with each name by itself.
fn includes_height(names: &[Name]) -> usize
    ensures { result ≡ spec.includes_height names.now }
{
    match names {
        [] => 0,
        [_, ..] => 2,
    }
}

/// The height of what a signature becomes.
#[cycle(sig_height)]
#[tactic(auto, using(crate::proofs::SigHeights::sig_forms))]
pub fn sig_height(sig: &FullSigExp) -> Result<usize, NoMemory>
    ensures { IfOk result (λ made. made ≡ spec.full_sig sig.now) }
{
    match sig {
        FullSigExp::Sig(specs, _) => above(above(specs_height(specs.as_slice())?)?),
        FullSigExp::Named(_, _) => Ok(1),
        FullSigExp::Where(inner, wheres, _) => {
            where_height(sig_height(inner.get())?, wheres.as_slice())
        }
    }
}

/// The highest of specifications.
#[cycle(sig_height)]
pub fn specs_height(specs: &[FullSpec]) -> Result<usize, NoMemory>
    ensures { IfOk result (λ made. made ≡ highest (map spec.full_spec specs.now)) }
{
    let mut made = 0usize;
    for spec in specs {
        made = made.max(spec_height(spec)?);
    }
    Ok(made)
}

/// The height of what a specification becomes.
#[cycle(sig_height)]
#[tactic(auto, using(crate::proofs::SigHeights::spec_forms))]
fn spec_height(full: &FullSpec) -> Result<usize, NoMemory>
    ensures { IfOk result (λ made. made ≡ spec.full_spec full.now) }
{
    match full {
        FullSpec::Vals(descs, _) => above(highest_of(descs.as_slice())?),
        FullSpec::Types(descs, _) => types_height(descs.as_slice()),
        FullSpec::Eqtypes(_, _) => Ok(1),
        FullSpec::Datatypes(binds, _) => above(highest_of(binds.as_slice())?),
        FullSpec::Replication(_, _, _) => Ok(1),
        FullSpec::Exceptions(cons, _) => above(highest_of(cons.as_slice())?),
        FullSpec::Structures(binds, _) => above(sig_binds_height(binds.as_slice())?),
        FullSpec::IncludeNames(names, _) => Ok(includes_height(names.as_slice())),
        FullSpec::Include(sig, _) => above(sig_height(sig.get())?),
    }
}

#[cycle(sig_height)]
pub fn sig_binds_height(binds: &[FullSigBind]) -> Result<usize, NoMemory>
    ensures { IfOk result (λ made. made ≡ highest (map spec.full_sig_bind binds.now)) }
{
    let mut made = 0usize;
    for bind in binds {
        made = made.max(sig_height(&bind.sig)?);
    }
    Ok(made)
}
