//! The heights of types, and of bindings that are made of names and types alone.

ghost use Rattle.std.specs.Prelude.{◌≡◌, IfOk, map};
ghost use Rattle.tree_heights.specs.Heights.{highest};
ghost use Rattle.tree_heights.specs.FullHeights as spec;

use crate::height::{High, above, highest_of};
use cm_base::NoMemory;
use sml_trees::{
    FullConBind, FullDatBind, FullExBind, FullExBody, FullTy, FullTyField, FullTypBind, FullValDesc,
};

/// The height of what a type becomes.
#[cycle(ty_height)]
#[tactic(auto, using(crate::proofs::TyHeights::ty_forms))]
pub fn ty_height(ty: &FullTy) -> Result<usize, NoMemory>
    ensures { IfOk result (λ made. made ≡ spec.full_ty ty.now) }
{
    match ty {
        FullTy::Var(_, _) => Ok(1),
        FullTy::Record(fields, _) => above(ty_fields_height(fields.as_slice())?),
        FullTy::Con(_, _) => Ok(1),
        FullTy::Applied(arg, _, _) => above(ty_height(arg.get())?),
        FullTy::AppliedAll(args, _, _) => above(tys_height(args.as_slice())?),
        FullTy::Tuple(parts, _) => above(tys_height(parts.as_slice())?),
        FullTy::Arrow(from, to, _) => {
            let from = ty_height(from.get())?;
            above(from.max(ty_height(to.get())?))
        }
        FullTy::Paren(inner, _) => ty_height(inner.get()),
    }
}

#[cycle(ty_height)]
fn tys_height(tys: &[FullTy]) -> Result<usize, NoMemory>
    ensures { IfOk result (λ made. made ≡ highest (map spec.full_ty tys.now)) }
{
    let mut made = 0usize;
    for ty in tys {
        made = made.max(ty_height(ty)?);
    }
    Ok(made)
}

#[cycle(ty_height)]
fn ty_fields_height(fields: &[FullTyField]) -> Result<usize, NoMemory>
    ensures { IfOk result (λ made. made ≡ highest (map spec.full_ty_field fields.now)) }
{
    let mut made = 0usize;
    for field in fields {
        made = made.max(ty_height(&field.ty)?);
    }
    Ok(made)
}

/// The height of a type that may be absent.
#[tactic(auto, using(crate::proofs::TyHeights::bind_forms))]
pub fn optional_ty_height(ty: &Option<FullTy>) -> Result<usize, NoMemory>
    ensures { IfOk result (λ made. made ≡ spec.full_optional_ty ty.now) }
{
    match ty {
        None => Ok(0),
        Some(ty) => ty_height(ty),
    }
}

impl High for FullTypBind {
    ghost use Rattle.tree_heights.specs.FullHeights.{full_typ_bind};

    ghost height = { full_typ_bind };

    #[tactic(auto, using(crate::proofs::TyHeights::bind_forms))]
    fn height(&self) -> Result<usize, NoMemory> {
        ty_height(&self.ty)
    }
}

impl High for FullConBind {
    ghost use Rattle.tree_heights.specs.FullHeights.{full_con};

    ghost height = { full_con };

    #[tactic(auto, using(crate::proofs::TyHeights::bind_forms))]
    fn height(&self) -> Result<usize, NoMemory> {
        optional_ty_height(&self.arg)
    }
}

impl High for FullDatBind {
    ghost use Rattle.tree_heights.specs.FullHeights.{full_dat};

    ghost height = { full_dat };

    #[tactic(auto, using(crate::proofs::TyHeights::bind_forms))]
    fn height(&self) -> Result<usize, NoMemory> {
        highest_of(self.cons.as_slice())
    }
}

/// The height of what an exception is.
#[tactic(auto, using(crate::proofs::TyHeights::bind_forms))]
fn ex_body_height(body: &FullExBody) -> Result<usize, NoMemory>
    ensures { IfOk result (λ made. made ≡ spec.full_ex_body body.now) }
{
    match body {
        FullExBody::Plain | FullExBody::Copy(_) => Ok(0),
        FullExBody::Of(arg) => ty_height(arg),
    }
}

impl High for FullExBind {
    ghost use Rattle.tree_heights.specs.FullHeights.{full_ex};

    ghost height = { full_ex };

    #[tactic(auto, using(crate::proofs::TyHeights::bind_forms))]
    fn height(&self) -> Result<usize, NoMemory> {
        ex_body_height(&self.body)
    }
}

impl High for FullValDesc {
    ghost use Rattle.tree_heights.specs.FullHeights.{full_val_desc};

    ghost height = { full_val_desc };

    #[tactic(auto, using(crate::proofs::TyHeights::bind_forms))]
    fn height(&self) -> Result<usize, NoMemory> {
        ty_height(&self.ty)
    }
}
