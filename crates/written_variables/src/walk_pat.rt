//! The type variables of patterns.

ghost use Rattle.std.specs.Prelude.{◌≡◌, ◌++◌, map, OnOk};
ghost use Rattle.std.specs.Option.{option_map};
ghost use Rattle.bare_phrases.specs.PhraseOf.{ty_phrase, pat_phrase, pat_field_phrase, pat_fields};
ghost use Rattle.static_semantics.specs.WrittenVariables.{tyvars_of_optional, tyvars_of_pat, tyvars_of_pat_fields};

use crate::walk_ty::walk_ty;
use cm_base::NoMemory;
use sml_trees::{Name, Pat, PatField, Ty};

/// Notes the type variables of a type, where there is one.
fn walk_optional_ty(met: &mut Vec<Name>, ty: &Option<Ty>) -> Result<(), NoMemory>
    ensures { OnOk result (met.new.items ≡ met.old.items ++ tyvars_of_optional (option_map ty_phrase ty.now)) }
{
    match ty {
        Some(ty) => walk_ty(met, ty),
        None => Ok(()),
    }
}

/// Notes the type variables of a pattern, from left to right.
#[cycle(walk_pat)]
#[tactic(auto, using(crate::proofs::Forms::forms))]
pub(crate) fn walk_pat(met: &mut Vec<Name>, pat: &Pat) -> Result<(), NoMemory>
    ensures { OnOk result (met.new.items ≡ met.old.items ++ tyvars_of_pat (pat_phrase pat.now)) }
{
    match pat {
        Pat::Wild(_) | Pat::Int(_, _) | Pat::Str(_, _) | Pat::Char(_, _) | Pat::Long(_, _) => Ok(
            (),
        ),
        Pat::Record(fields, _) => walk_pat_fields(met, fields.as_slice()),
        Pat::Con(_, arg, _) => walk_pat(met, arg.get()),
        Pat::Typed(pat, ty, _) => {
            walk_pat(met, pat.get())?;
            walk_ty(met, ty)
        }
        Pat::As(_, ty, pat, _) => {
            walk_optional_ty(met, ty)?;
            walk_pat(met, pat.get())
        }
    }
}

#[cycle(walk_pat)]
#[tactic(auto, using(crate::proofs::Forms::forms))]
fn walk_pat_fields(met: &mut Vec<Name>, fields: &[PatField]) -> Result<(), NoMemory>
    ensures { OnOk result (met.new.items
        ≡ met.old.items ++ tyvars_of_pat_fields (pat_fields (map pat_field_phrase fields.now))) }
{
    for field in fields {
        walk_pat(met, &field.pat)?;
    }
    Ok(())
}
