//! The uses of types, and of the bindings that are made of names and types.

ghost use Rattle.std.specs.Prelude.{◌≡◌, OnOk, map};
ghost use Rattle.skeletons.specs.Scopes.{all_uses};
ghost use Rattle.skeletons.specs.Uses.{ty_uses, ty_field_uses, option_uses};
ghost use Rattle.skeletons.specs.Walks.{noted};

use crate::noted::{Noted, note_all};
use crate::walk::Walk;
use cm_base::NoMemory;
use sml_trees::{ConBind, DatBind, ExBind, ExBody, Ty, TyField, TypBind, ValDesc};

#[cycle(walk_ty)]
#[tactic(auto, using(crate::proofs::Chains::chains))]
pub(crate) fn walk_ty(walk: &mut Walk, ty: &Ty) -> Result<(), NoMemory>
    ensures { OnOk result (walk.new ≡ noted walk.old (ty_uses ty.now)) }
{
    match ty {
        Ty::Var(_, _) => Ok(()),
        Ty::Record(fields, _) => walk_ty_fields(walk, fields.as_slice()),
        Ty::Named(args, long, _) => {
            walk_tys(walk, args.as_slice())?;
            walk.qualifier(long)
        }
        Ty::Arrow(from, to, _) => {
            walk_ty(walk, from.get())?;
            walk_ty(walk, to.get())
        }
    }
}

#[cycle(walk_ty)]
#[tactic(auto, using(crate::proofs::Chains::chains))]
fn walk_ty_fields(walk: &mut Walk, fields: &[TyField]) -> Result<(), NoMemory>
    ensures { OnOk result (walk.new ≡ noted walk.old (all_uses (map ty_field_uses fields.now))) }
{
    for field in fields {
        walk_ty(walk, &field.ty)?;
    }
    Ok(())
}

#[cycle(walk_ty)]
#[tactic(auto, using(crate::proofs::Chains::chains))]
fn walk_tys(walk: &mut Walk, tys: &[Ty]) -> Result<(), NoMemory>
    ensures { OnOk result (walk.new ≡ noted walk.old (all_uses (map ty_uses tys.now))) }
{
    for ty in tys {
        walk_ty(walk, ty)?;
    }
    Ok(())
}

/// The uses of a type that may be absent.
pub(crate) fn walk_option(walk: &mut Walk, ty: &Option<Ty>) -> Result<(), NoMemory>
    ensures { OnOk result (walk.new ≡ noted walk.old (option_uses ty.now)) }
{
    match ty {
        Some(ty) => walk_ty(walk, ty),
        None => Ok(()),
    }
}

impl Noted for TypBind {
    ghost use Rattle.skeletons.specs.Uses.{typ_bind_uses};

    ghost uses = { typ_bind_uses };

    fn note(&self, walk: &mut Walk) -> Result<(), NoMemory> {
        walk_ty(walk, &self.ty)
    }
}

impl Noted for ConBind {
    ghost use Rattle.skeletons.specs.Uses.{con_bind_uses};

    ghost uses = { con_bind_uses };

    fn note(&self, walk: &mut Walk) -> Result<(), NoMemory> {
        walk_option(walk, &self.arg)
    }
}

impl Noted for DatBind {
    ghost use Rattle.skeletons.specs.Uses.{dat_bind_uses};

    ghost uses = { dat_bind_uses };

    fn note(&self, walk: &mut Walk) -> Result<(), NoMemory> {
        note_all(walk, &self.cons)
    }
}

impl Noted for ExBind {
    ghost use Rattle.skeletons.specs.Uses.{ex_bind_uses};

    ghost uses = { ex_bind_uses };

    fn note(&self, walk: &mut Walk) -> Result<(), NoMemory> {
        match &self.body {
            ExBody::Plain => Ok(()),
            ExBody::Of(ty) => walk_ty(walk, ty),
            ExBody::Copy(long) => walk.qualifier(long),
        }
    }
}

impl Noted for ValDesc {
    ghost use Rattle.skeletons.specs.Uses.{val_desc_uses};

    ghost uses = { val_desc_uses };

    fn note(&self, walk: &mut Walk) -> Result<(), NoMemory> {
        walk_ty(walk, &self.ty)
    }
}
