//! Lists of types, and of bindings that are made of names and types alone.

ghost use Rattle.std.specs.Prelude.{◌≡◌, OnOk, map};
ghost use Rattle.std.specs.List.{flat_map};
ghost use Rattle.repeated_names.specs.Repeats.{earliest_with, repeats_in, all_repeats};
ghost use Rattle.repeated_names.specs.RepeatedTypes as spec;

use crate::find::{Finder, Listed, Searched, find_behind, find_in, find_tyvars};
use cm_base::NoMemory;
use sml_trees::{
    FullConBind, FullDatBind, FullExBind, FullExBody, FullTy, FullTyField, FullTypBind,
    FullTypDesc, FullValDesc, Name, TypDesc,
};

#[cycle(find_ty)]
#[tactic(auto, using(crate::proofs::Found::ty_steps))]
pub fn find_ty(finder: &mut Finder, ty: &FullTy) -> Result<(), NoMemory>
    ensures { OnOk result (finder.new ≡ earliest_with finder.old (spec.ty_repeats ty.now)) }
{
    match ty {
        FullTy::Var(_, _) | FullTy::Con(_, _) => Ok(()),
        FullTy::Record(fields, _) => find_ty_fields(finder, fields.as_slice()),
        FullTy::Applied(arg, _, _) => find_ty(finder, arg.get()),
        FullTy::AppliedAll(args, _, _) => find_tys(finder, args.as_slice()),
        FullTy::Tuple(parts, _) => find_tys(finder, parts.as_slice()),
        FullTy::Arrow(from, to, _) => {
            find_ty(finder, from.get())?;
            find_ty(finder, to.get())
        }
        FullTy::Paren(inner, _) => find_ty(finder, inner.get()),
    }
}

#[cycle(find_ty)]
#[tactic(auto, using(crate::proofs::Found::found_steps))]
fn find_tys(finder: &mut Finder, tys: &[FullTy]) -> Result<(), NoMemory>
    ensures { OnOk result (finder.new ≡ earliest_with finder.old (all_repeats (map spec.ty_repeats tys.now))) }
{
    for ty in tys {
        find_ty(finder, ty)?;
    }
    Ok(())
}

#[cycle(find_ty)]
#[tactic(auto, using(crate::proofs::Found::seen_steps))]
fn find_ty_fields(finder: &mut Finder, fields: &[FullTyField]) -> Result<(), NoMemory>
    ensures { OnOk result (finder.new ≡ earliest_with finder.old (repeats_in (map spec.ty_field_member fields.now))) }
{
    let mut seen = finder.no_names();
    for field in fields {
        finder.see(&mut seen, &field.label)?;
        find_ty(finder, &field.ty)?;
    }
    Ok(())
}

/// A type that may be absent.
pub fn find_optional_ty(finder: &mut Finder, ty: &Option<FullTy>) -> Result<(), NoMemory>
    ensures { OnOk result (finder.new ≡ earliest_with finder.old (spec.optional_ty ty.now)) }
{
    match ty {
        None => Ok(()),
        Some(ty) => find_ty(finder, ty),
    }
}

impl Listed for FullTypBind {
    ghost use Rattle.repeated_names.specs.RepeatedTypes.{typ_bind_member};

    ghost listed = { typ_bind_member };

    fn name(&self) -> &Name {
        &self.name
    }

    #[tactic(auto, using(crate::proofs::Found::found_steps))]
    fn find_inside(&self, finder: &mut Finder) -> Result<(), NoMemory> {
        find_tyvars(finder, self.tyvars.as_slice())?;
        find_ty(finder, &self.ty)
    }
}

impl Listed for FullTypDesc {
    ghost use Rattle.repeated_names.specs.RepeatedTypes.{typ_desc_member};

    ghost listed = { typ_desc_member };

    fn name(&self) -> &Name {
        &self.name
    }

    #[tactic(auto, using(crate::proofs::Found::found_steps))]
    fn find_inside(&self, finder: &mut Finder) -> Result<(), NoMemory> {
        find_tyvars(finder, self.tyvars.as_slice())?;
        find_optional_ty(finder, &self.ty)
    }
}

impl Listed for FullConBind {
    ghost use Rattle.repeated_names.specs.RepeatedTypes.{con_member};

    ghost listed = { con_member };

    fn name(&self) -> &Name {
        &self.name.name
    }

    fn find_inside(&self, finder: &mut Finder) -> Result<(), NoMemory> {
        find_optional_ty(finder, &self.arg)
    }
}

impl Listed for FullDatBind {
    ghost use Rattle.repeated_names.specs.RepeatedTypes.{dat_member};

    ghost listed = { dat_member };

    fn name(&self) -> &Name {
        &self.name
    }

    fn find_inside(&self, finder: &mut Finder) -> Result<(), NoMemory> {
        find_tyvars(finder, self.tyvars.as_slice())
    }
}

/// The types of what an exception is.
fn find_ex_body(finder: &mut Finder, body: &FullExBody) -> Result<(), NoMemory>
    ensures { OnOk result (finder.new ≡ earliest_with finder.old (spec.ex_body_repeats body.now)) }
{
    match body {
        FullExBody::Plain | FullExBody::Copy(_) => Ok(()),
        FullExBody::Of(arg) => find_ty(finder, arg),
    }
}

impl Listed for FullExBind {
    ghost use Rattle.repeated_names.specs.RepeatedTypes.{ex_member};

    ghost listed = { ex_member };

    fn name(&self) -> &Name {
        &self.name.name
    }

    fn find_inside(&self, finder: &mut Finder) -> Result<(), NoMemory> {
        find_ex_body(finder, &self.body)
    }
}

impl Searched for FullValDesc {
    ghost use Rattle.repeated_names.specs.RepeatedTypes.{val_desc_repeats};

    ghost repeats = { val_desc_repeats };

    fn find(&self, finder: &mut Finder) -> Result<(), NoMemory> {
        find_ty(finder, &self.ty)
    }
}

impl Searched for TypDesc {
    ghost use Rattle.repeated_names.specs.RepeatedTypes.{eq_desc_repeats};

    ghost repeats = { eq_desc_repeats };

    fn find(&self, finder: &mut Finder) -> Result<(), NoMemory> {
        find_tyvars(finder, self.tyvars.as_slice())
    }
}

/// The constructors of a datatype, behind others.
#[tactic(auto, using(crate::proofs::Found::seen_steps))]
fn find_cons(finder: &mut Finder, binds: &[FullDatBind]) -> Result<(), NoMemory>
    ensures { OnOk result
        (finder.new ≡ earliest_with finder.old (repeats_in (flat_map spec.dat_cons binds.now))) }
{
    let mut seen = finder.no_names();
    for bind in binds {
        find_behind(finder, &mut seen, bind.cons.as_slice())?;
    }
    Ok(())
}

/// The types of a `datatype`, and its constructors.
#[tactic(auto, using(crate::proofs::Found::found_steps))]
pub fn find_datatypes(finder: &mut Finder, binds: &[FullDatBind]) -> Result<(), NoMemory>
    ensures { OnOk result (finder.new ≡ earliest_with finder.old (spec.dat_repeats binds.now)) }
{
    find_in(finder, binds)?;
    find_cons(finder, binds)
}
