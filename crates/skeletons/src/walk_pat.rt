//! The uses of patterns.

ghost use Rattle.std.specs.Prelude.{◌≡◌, OnOk, map};
ghost use Rattle.skeletons.specs.Scopes.{all_uses};
ghost use Rattle.skeletons.specs.Uses.{pat_uses, pat_field_uses};
ghost use Rattle.skeletons.specs.Walks.{noted};

use crate::walk::Walk;
use crate::walk_ty::{walk_option, walk_ty};
use cm_base::NoMemory;
use sml_trees::{Pat, PatField};

#[cycle(walk_pat)]
#[tactic(auto, using(crate::proofs::Chains::chains))]
pub(crate) fn walk_pat(walk: &mut Walk, pat: &Pat) -> Result<(), NoMemory>
    ensures { OnOk result (walk.new ≡ noted walk.old (pat_uses pat.now)) }
{
    match pat {
        Pat::Wild(_) | Pat::Int(_, _) | Pat::Str(_, _) | Pat::Char(_, _) => Ok(()),
        Pat::Long(long, _) => walk.qualifier(long),
        Pat::Record(fields, _) => walk_pat_fields(walk, fields.as_slice()),
        Pat::Con(long, arg, _) => {
            walk.qualifier(long)?;
            walk_pat(walk, arg.get())
        }
        Pat::Typed(pat, ty, _) => {
            walk_pat(walk, pat.get())?;
            walk_ty(walk, ty)
        }
        Pat::As(_, ty, pat, _) => {
            walk_option(walk, ty)?;
            walk_pat(walk, pat.get())
        }
    }
}

#[cycle(walk_pat)]
#[tactic(auto, using(crate::proofs::Chains::chains))]
fn walk_pat_fields(walk: &mut Walk, fields: &[PatField]) -> Result<(), NoMemory>
    ensures { OnOk result (walk.new ≡ noted walk.old (all_uses (map pat_field_uses fields.now))) }
{
    for field in fields {
        walk_pat(walk, &field.pat)?;
    }
    Ok(())
}
