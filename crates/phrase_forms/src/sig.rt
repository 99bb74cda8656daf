//! Signature expressions and specifications.

ghost use Rattle.std.specs.Prelude.{◌≡◌, IfOk, map};
ghost use Rattle.std.specs.List.{flat_map};
ghost use Rattle.bare_forms.specs.Signatures as spec;
ghost use Rattle.bare_forms.specs.Types.{plain_desc};
ghost use Rattle.sml_trees.specs.declared.sig_exp.SigExp.TheVariants as bare;
ghost use Rattle.sml_trees.specs.declared.sig_exp.Spec.TheVariants as bare_spec;

use crate::bare::{Full, to_list};
use crate::ty::to_ty;
use bare_forms::held::{appended, boxed_beside, one, with};
use bare_forms::name::{copy_long, copy_name, copy_names, long_of_name, place};
use cm_base::{Boxed, List, NoMemory};
use sml_trees::held::both;
use sml_trees::{
    At, FullSigBind, FullSigExp, FullSpec, FullTypDesc, FullWhere, LongName, Name, SigBind, SigExp,
    Spec, Ty, TypDesc,
};
use std::alloc::Global;

/// `inner where type tyvars long = ty`
fn with_type(
    alloc: Global,
    at: At,
    inner: SigExp,
    tyvars: &[Name],
    long: &LongName,
    ty: Ty,
) -> Result<SigExp, NoMemory>
    ensures { IfOk result (λ made. made ≡ bare.Where inner tyvars.now long.now ty at) }
{
    let (inner, ty) = boxed_beside(alloc, inner, ty)?;
    let ((inner, ty), tyvars) = both((inner, ty), copy_names(alloc, tyvars))?;
    let ((inner, ty, tyvars), long) = both((inner, ty, tyvars), copy_long(alloc, long))?;
    Ok(SigExp::Where(inner, tyvars, long, ty, at))
}

/// A signature with types for names of it, the first innermost.
fn where_sig(alloc: Global, at: At, inner: SigExp, wheres: &[FullWhere]) -> Result<SigExp, NoMemory>
    ensures { IfOk result (λ made. made ≡ spec.where_sig at inner wheres.now) }
{
    let mut made = inner;
    for each in wheres {
        let (inner, ty) = both(made, to_ty(alloc, &each.ty))?;
        made = with_type(alloc, at, inner, each.tyvars.as_slice(), &each.long, ty)?;
    }
    Ok(made)
}

/// `type desc` alone.
fn one_type(alloc: Global, at: At, desc: TypDesc) -> Result<Spec, NoMemory>
    ensures { IfOk result (λ made. made ≡ spec.one_type at desc) }
{
    Ok(Spec::Types(one(alloc, desc)?, at))
}

/// `sig specs end`
pub fn sig_of(alloc: Global, at: At, specs: List<Spec>) -> Result<SigExp, NoMemory>
    ensures { IfOk result (λ made. made ≡ bare.Sig (bare_spec.Sequence specs at) at) }
{
    let specs = Boxed::new(alloc, Spec::Sequence(specs, at))?;
    Ok(SigExp::Sig(specs, at))
}

/// `sig type desc end`
fn type_sig(alloc: Global, at: At, desc: TypDesc) -> Result<SigExp, NoMemory>
    ensures { IfOk result (λ made. made ≡ spec.type_sig at desc) }
{
    let specs = one(alloc, one_type(alloc, at, desc)?)?;
    sig_of(alloc, at, specs)
}

/// The specification of one type, which may stand for another.
fn single_spec(alloc: Global, at: At, desc: &FullTypDesc) -> Result<Spec, NoMemory>
    ensures { IfOk result (λ made. made ≡ spec.single_spec at (plain_desc desc.now) desc.now.ty) }
{
    let plain = desc.to_bare(alloc)?;
    match &desc.ty {
        None => one_type(alloc, at, plain),
        Some(ty) => {
            let long = long_of_name(alloc, &desc.name)?;
            let (inner, ty) = both(type_sig(alloc, at, plain)?, to_ty(alloc, ty))?;
            let sig = with_type(alloc, at, inner, desc.tyvars.as_slice(), &long, ty)?;
            Ok(Spec::Include(Boxed::new(alloc, sig)?, at))
        }
    }
}

/// Whether one of the types stands for another.
pub fn has_type(descs: &[FullTypDesc]) -> bool
    ensures { result ≡ spec.has_type descs.now }
{
    for desc in descs {
        if let Some(_) = &desc.ty {
            return true;
        }
    }
    false
}

/// Each type's specification by itself.
fn single_specs(alloc: Global, at: At, descs: &[FullTypDesc]) -> Result<List<Spec>, NoMemory>
    ensures { IfOk result (λ made. made ≡ map (spec.single_of at) descs.now) }
{
    let mut made = List::new(alloc);
    for desc in descs {
        let (before, single) = both(made, single_spec(alloc, at, desc))?;
        made = with(before, single)?;
    }
    Ok(made)
}

/// The specification of types, one or more.
fn types(alloc: Global, at: At, descs: &List<FullTypDesc>) -> Result<List<Spec>, NoMemory>
    ensures { IfOk result (λ made. made ≡ spec.type_specs at descs.now) }
{
    if has_type(descs.as_slice()) {
        return single_specs(alloc, at, descs.as_slice());
    }
    one(alloc, Spec::Types(to_list(alloc, descs)?, at))
}

/// `include name`
fn include(alloc: Global, at: At, name: &Name) -> Result<Spec, NoMemory>
    ensures { IfOk result (λ made. made ≡ spec.include_name at name.now) }
{
    let named = Boxed::new(alloc, SigExp::Named(copy_name(name)?, place(name)))?;
    Ok(Spec::Include(named, at))
}

/// `include` with each name by itself, the first where the specification begins.
fn includes(alloc: Global, at: At, names: &[Name]) -> Result<List<Spec>, NoMemory>
    ensures { IfOk result (λ made. made ≡ spec.include_names at names.now) }
{
    let [first, others @ ..] = names else {
        return Ok(List::new(alloc));
    };
    let mut made = one(alloc, include(alloc, at, first)?)?;
    for name in others {
        let (before, include) = both(made, include(alloc, place(name), name))?;
        made = with(before, include)?;
    }
    Ok(made)
}

/// A signature expression without derived forms.
#[cycle(to_sig)]
#[tactic(auto, using(bare_forms::proofs::SigLevels::sig_levels))]
pub fn to_sig(alloc: Global, sig: &FullSigExp) -> Result<SigExp, NoMemory>
    ensures { IfOk result (λ made. made ≡ spec.bare_sig sig.now) }
{
    match sig {
        FullSigExp::Sig(specs, at) => {
            let specs = to_specs(alloc, specs.as_slice())?;
            sig_of(alloc, *at, specs)
        }
        FullSigExp::Named(name, at) => Ok(SigExp::Named(copy_name(name)?, *at)),
        FullSigExp::Where(inner, wheres, at) => {
            let inner = to_sig(alloc, inner.get())?;
            where_sig(alloc, *at, inner, wheres.as_slice())
        }
    }
}

/// Specifications one after another.
#[cycle(to_sig)]
pub fn to_specs(alloc: Global, specs: &[FullSpec]) -> Result<List<Spec>, NoMemory>
    ensures { IfOk result (λ made. made ≡ flat_map spec.bare_spec specs.now) }
{
    let mut made = Vec::new(alloc);
    for spec in specs {
        let (before, more) = both(made, to_spec(alloc, spec))?;
        made = appended(before, more)?;
    }
    Ok(List::from_vec(made))
}

/// What a specification becomes, one or more.
#[cycle(to_sig)]
#[tactic(auto, using(bare_forms::proofs::SigLevels::sig_levels))]
fn to_spec(alloc: Global, full: &FullSpec) -> Result<List<Spec>, NoMemory>
    ensures { IfOk result (λ made. made ≡ spec.bare_spec full.now) }
{
    match full {
        FullSpec::Vals(descs, at) => one(alloc, Spec::Vals(to_list(alloc, descs)?, *at)),
        FullSpec::Types(descs, at) => types(alloc, *at, descs),
        FullSpec::Eqtypes(descs, at) => one(alloc, Spec::Eqtypes(copied(alloc, descs)?, *at)),
        FullSpec::Datatypes(binds, at) => one(alloc, Spec::Datatypes(to_list(alloc, binds)?, *at)),
        FullSpec::Replication(name, long, at) => {
            one(
                alloc,
                Spec::Replication(copy_name(name)?, copy_long(alloc, long)?, *at),
            )
        }
        FullSpec::Exceptions(cons, at) => one(alloc, Spec::Exceptions(to_list(alloc, cons)?, *at)),
        FullSpec::Structures(binds, at) => {
            one(
                alloc,
                Spec::Structures(to_sig_binds(alloc, binds.as_slice())?, *at),
            )
        }
        FullSpec::IncludeNames(names, at) => includes(alloc, *at, names.as_slice()),
        FullSpec::Include(sig, at) => {
            let sig = Boxed::new(alloc, to_sig(alloc, sig.get())?)?;
            one(alloc, Spec::Include(sig, *at))
        }
    }
}

/// The same descriptions again.
fn copied(alloc: Global, descs: &List<TypDesc>) -> Result<List<TypDesc>, NoMemory>
    ensures { IfOk result (λ made. made ≡ descs.now) }
{
    let mut made = List::new(alloc);
    for desc in descs.as_slice() {
        made.add(TypDesc {
            tyvars: copy_names(alloc, desc.tyvars.as_slice())?,
            name: copy_name(&desc.name)?,
        })?;
    }
    Ok(made)
}

#[cycle(to_sig)]
#[tactic(auto, using(bare_forms::proofs::SigLevels::sig_levels))]
fn to_sig_bind(alloc: Global, bind: &FullSigBind) -> Result<SigBind, NoMemory>
    ensures { IfOk result (λ made. made ≡ spec.bare_sig_bind bind.now) }
{
    let sig = to_sig(alloc, &bind.sig)?;
    let (sig, name) = both(sig, copy_name(&bind.name))?;
    Ok(SigBind { name, sig })
}

#[cycle(to_sig)]
pub fn to_sig_binds(alloc: Global, binds: &[FullSigBind]) -> Result<List<SigBind>, NoMemory>
    ensures { IfOk result (λ made. made ≡ map spec.bare_sig_bind binds.now) }
{
    let mut made = List::new(alloc);
    for bind in binds {
        let (before, bind) = both(made, to_sig_bind(alloc, bind))?;
        made = with(before, bind)?;
    }
    Ok(made)
}
