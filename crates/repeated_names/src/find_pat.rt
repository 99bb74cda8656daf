//! Lists of patterns.

ghost use Rattle.std.specs.Prelude.{◌≡◌, OnOk, map};
ghost use Rattle.std.specs.Option.{option_map};
ghost use Rattle.repeated_names.specs.Repeats.{earliest_with, repeats_in, all_repeats, option_repeats};
ghost use Rattle.repeated_names.specs.RepeatedTypes as spec;

use crate::find::Finder;
use crate::find_ty::{find_optional_ty, find_ty};
use cm_base::NoMemory;
use sml_trees::{FullPat, FullPatField, FullPatItem, Name};

#[cycle(find_pat)]
#[tactic(auto, using(crate::proofs::Found::pat_steps))]
pub fn find_pat(finder: &mut Finder, pat: &FullPat) -> Result<(), NoMemory>
    ensures { OnOk result (finder.new ≡ earliest_with finder.old (spec.pat_repeats pat.now)) }
{
    match pat {
        FullPat::Wild(_) => Ok(()),
        FullPat::Constant(_, _) => Ok(()),
        FullPat::Long(_, _) => Ok(()),
        FullPat::Record(fields, _) => find_pat_fields(finder, fields.as_slice()),
        FullPat::Unit(_) => Ok(()),
        FullPat::Tuple(parts, _) => find_pats(finder, parts.as_slice()),
        FullPat::Paren(inner, _) => find_pat(finder, inner.get()),
        FullPat::List(items, _) => find_pats(finder, items.as_slice()),
        FullPat::Run(items, _) => find_pat_items(finder, items.as_slice()),
        FullPat::Typed(inner, ty, _) => {
            find_pat(finder, inner.get())?;
            find_ty(finder, ty)
        }
        FullPat::As(_, ty, inner, _) => {
            find_optional_ty(finder, ty)?;
            find_pat(finder, inner.get())
        }
    }
}

#[cycle(find_pat)]
#[tactic(auto, using(crate::proofs::Found::found_steps))]
pub fn find_pats(finder: &mut Finder, pats: &[FullPat]) -> Result<(), NoMemory>
    ensures { OnOk result (finder.new ≡ earliest_with finder.old (all_repeats (map spec.pat_repeats pats.now))) }
{
    for pat in pats {
        find_pat(finder, pat)?;
    }
    Ok(())
}

#[cycle(find_pat)]
#[tactic(auto, using(crate::proofs::Found::found_steps))]
fn find_pat_items(finder: &mut Finder, items: &[FullPatItem]) -> Result<(), NoMemory>
    ensures { OnOk result (finder.new ≡ earliest_with finder.old (all_repeats (map spec.pat_item_repeats items.now))) }
{
    for item in items {
        find_pat_item(finder, item)?;
    }
    Ok(())
}

#[cycle(find_pat)]
fn find_pat_item(finder: &mut Finder, item: &FullPatItem) -> Result<(), NoMemory>
    ensures { OnOk result (finder.new ≡ earliest_with finder.old (spec.pat_item_repeats item.now)) }
{
    match item {
        FullPatItem::Atom(pat) => find_pat(finder, pat),
        FullPatItem::Operator(_, _) => Ok(()),
    }
}

#[cycle(find_pat)]
#[tactic(auto, using(crate::proofs::Found::seen_steps))]
fn find_pat_fields(finder: &mut Finder, fields: &[FullPatField]) -> Result<(), NoMemory>
    ensures { OnOk result (finder.new ≡ earliest_with finder.old (repeats_in (map spec.pat_field_member fields.now))) }
{
    let mut seen = finder.no_names();
    for field in fields {
        finder.see(&mut seen, label_of(field))?;
        find_in_field(finder, field)?;
    }
    Ok(())
}

/// The label of a field.
#[tactic(auto, using(crate::proofs::Found::pat_steps))]
fn label_of(field: &FullPatField) -> &Name
    ensures { result.now ≡ (spec.pat_field_member field.now).name }
{
    match field {
        FullPatField::Labelled(label, _) => label,
        FullPatField::Named(name, _, _) => name,
    }
}

#[cycle(find_pat)]
#[tactic(auto, using(crate::proofs::Found::found_steps, crate::proofs::Found::pat_steps))]
fn find_in_field(finder: &mut Finder, field: &FullPatField) -> Result<(), NoMemory>
    ensures { OnOk result (finder.new ≡ earliest_with finder.old (spec.pat_field_member field.now).inside) }
{
    match field {
        FullPatField::Labelled(_, pat) => find_pat(finder, pat),
        FullPatField::Named(_, ty, pat) => {
            find_optional_ty(finder, ty)?;
            find_optional_pat(finder, pat)
        }
    }
}

#[cycle(find_pat)]
fn find_optional_pat(finder: &mut Finder, pat: &Option<FullPat>) -> Result<(), NoMemory>
    ensures { OnOk result
        (finder.new ≡ earliest_with finder.old (option_repeats (option_map spec.pat_repeats pat.now))) }
{
    match pat {
        None => Ok(()),
        Some(pat) => find_pat(finder, pat),
    }
}
