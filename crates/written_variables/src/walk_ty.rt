//! The type variables of types.

ghost use Rattle.std.specs.Prelude.{◌≡◌, ◌++◌, map, OnOk};
ghost use Rattle.bare_phrases.specs.PhraseOf.{ty_phrase, ty_field_phrase, ty_fields, ty_phrases};
ghost use Rattle.static_semantics.specs.WrittenVariables.{tyvars_of_ty, tyvars_of_ty_fields, tyvars_of_tys};

use crate::noted::note;
use cm_base::NoMemory;
use sml_trees::{Name, Ty, TyField};

/// Notes the type variables of a type, from left to right.
#[cycle(walk_ty)]
#[tactic(auto, using(crate::proofs::Forms::forms))]
pub(crate) fn walk_ty(met: &mut Vec<Name>, ty: &Ty) -> Result<(), NoMemory>
    ensures { OnOk result (met.new.items ≡ met.old.items ++ tyvars_of_ty (ty_phrase ty.now)) }
{
    match ty {
        Ty::Var(name, _) => note(met, name),
        Ty::Record(fields, _) => walk_ty_fields(met, fields.as_slice()),
        Ty::Named(args, _, _) => walk_tys(met, args.as_slice()),
        Ty::Arrow(from, to, _) => {
            walk_ty(met, from.get())?;
            walk_ty(met, to.get())
        }
    }
}

#[cycle(walk_ty)]
#[tactic(auto, using(crate::proofs::Forms::forms))]
fn walk_ty_fields(met: &mut Vec<Name>, fields: &[TyField]) -> Result<(), NoMemory>
    ensures { OnOk result (met.new.items
        ≡ met.old.items ++ tyvars_of_ty_fields (ty_fields (map ty_field_phrase fields.now))) }
{
    for field in fields {
        walk_ty(met, &field.ty)?;
    }
    Ok(())
}

#[cycle(walk_ty)]
#[tactic(auto, using(crate::proofs::Forms::forms))]
fn walk_tys(met: &mut Vec<Name>, args: &[Ty]) -> Result<(), NoMemory>
    ensures { OnOk result (met.new.items ≡ met.old.items ++ tyvars_of_tys (ty_phrases (map ty_phrase args.now))) }
{
    for arg in args {
        walk_ty(met, arg)?;
    }
    Ok(())
}
