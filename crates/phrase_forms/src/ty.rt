//! Types, and the bindings that are made of names and types alone.

ghost use Rattle.std.specs.Prelude.{◌≡◌, IfOk, map};
ghost use Rattle.std.specs.Option.{option_map};
ghost use Rattle.bare_forms.specs.Types.{ty_fields_from, bare_ty, bare_ty_field};
ghost use Rattle.sml_trees.specs.declared.ty.Ty.TheVariants as bare;

use bare_forms::held::{boxed_two, one, with};
use bare_forms::name::{copy_long, copy_name, label};
use cm_base::{List, NoMemory};
use sml_trees::held::both;
use sml_trees::{At, FullTy, FullTyField, LongName, Ty, TyField};
use std::alloc::Global;

/// A type constructor with its arguments.
fn named_ty(alloc: Global, at: At, args: List<Ty>, long: &LongName) -> Result<Ty, NoMemory>
    ensures { IfOk result (λ made. made ≡ bare.Named args long.now at) }
{
    let (args, long) = both(args, copy_long(alloc, long))?;
    Ok(Ty::Named(args, long, at))
}

/// A type without derived forms.
#[cycle(to_ty)]
#[tactic(auto, using(bare_forms::proofs::Levels::ty_levels))]
pub fn to_ty(alloc: Global, ty: &FullTy) -> Result<Ty, NoMemory>
    ensures { IfOk result (λ bare. bare ≡ bare_ty ty.now) }
{
    match ty {
        FullTy::Var(name, at) => Ok(Ty::Var(copy_name(name)?, *at)),
        FullTy::Record(fields, at) => Ok(Ty::Record(to_ty_fields(alloc, fields.as_slice())?, *at)),
        FullTy::Con(long, at) => named_ty(alloc, *at, List::new(alloc), long),
        FullTy::Applied(arg, long, at) => {
            let args = one(alloc, to_ty(alloc, arg.get())?)?;
            named_ty(alloc, *at, args, long)
        }
        FullTy::AppliedAll(args, long, at) => {
            named_ty(alloc, *at, to_tys(alloc, args.as_slice())?, long)
        }
        FullTy::Tuple(parts, at) => Ok(Ty::Record(to_ty_tuple(alloc, *at, parts.as_slice())?, *at)),
        FullTy::Arrow(from, to, at) => {
            let from = to_ty(alloc, from.get())?;
            let (from, to) = both(from, to_ty(alloc, to.get()))?;
            let (from, to) = boxed_two(alloc, from, to)?;
            Ok(Ty::Arrow(from, to, *at))
        }
        FullTy::Paren(inner, _) => to_ty(alloc, inner.get()),
    }
}

#[cycle(to_ty)]
fn to_tys(alloc: Global, tys: &[FullTy]) -> Result<List<Ty>, NoMemory>
    ensures { IfOk result (λ bare. bare ≡ map bare_ty tys.now) }
{
    let mut made = List::new(alloc);
    for ty in tys {
        let (before, ty) = both(made, to_ty(alloc, ty))?;
        made = with(before, ty)?;
    }
    Ok(made)
}

#[cycle(to_ty)]
#[tactic(auto, using(bare_forms::proofs::Levels::ty_levels))]
fn to_ty_fields(alloc: Global, fields: &[FullTyField]) -> Result<List<TyField>, NoMemory>
    ensures { IfOk result (λ bare. bare ≡ map bare_ty_field fields.now) }
{
    let mut made = List::new(alloc);
    for field in fields {
        let (before, ty) = both(made, to_ty(alloc, &field.ty))?;
        let ((before, ty), label) = both((before, ty), copy_name(&field.label))?;
        made = with(before, TyField { label, ty })?;
    }
    Ok(made)
}

/// The fields of a tuple type.
#[cycle(to_ty)]
fn to_ty_tuple(alloc: Global, at: At, parts: &[FullTy]) -> Result<List<TyField>, NoMemory>
    ensures { IfOk result (λ bare. bare ≡ ty_fields_from at 1 (map bare_ty parts.now)) }
{
    let mut made = List::new(alloc);
    let mut number = 1;
    for part in parts {
        let (before, ty) = both(made, to_ty(alloc, part))?;
        let ((before, ty), label) = both((before, ty), label(alloc, at, number))?;
        made = with(before, TyField { label, ty })?;
        number += 1;
    }
    Ok(made)
}

/// The type of what may have one.
pub fn to_optional_ty(alloc: Global, ty: &Option<FullTy>) -> Result<Option<Ty>, NoMemory>
    ensures { IfOk result (λ bare. bare ≡ option_map bare_ty ty.now) }
{
    match ty {
        None => Ok(None),
        Some(ty) => Ok(Some(to_ty(alloc, ty)?)),
    }
}
