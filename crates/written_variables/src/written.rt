//! The type variables of a phrase, each once.

ghost use Rattle.std.specs.Prelude.{◌≡◌, [], map, IfOk, OnOk};
ghost use Rattle.bare_phrases.specs.PhraseOf.{ty_phrase, rule_phrase, rules_of};
ghost use Rattle.static_semantics.specs.WrittenVariables.{tyvars_of_ty, by_place, texts_once, written_in};
ghost use Rattle.written_variables.specs.Texts.{AreSeen, with_text};

use crate::by_place::sort_by_place;
use crate::walk_exp::walk_rules;
use crate::walk_ty::walk_ty;
use cm_base::{List, NoMemory, Text};
use indexmap::IndexSet;
use sml_trees::{Name, Rule, Ty};
use std::alloc::Global;

/// Adds a text behind those that were seen, if it isn't one of them.
fn add_once(seen: &mut IndexSet<Text>, texts: &mut List<Text>, text: &Text) -> Result<(), NoMemory>
    requires { AreSeen seen.old texts.old }
    ensures seen { OnOk result (AreSeen seen.new texts.new) }
    ensures texts { OnOk result (texts.new ≡ with_text texts.old text.now) }
{
    if seen.contains(text) {
        return Ok(());
    }
    seen.insert(text.copy()?)?;
    texts.add(text.copy()?)
}

/// The texts of names, each where it stands first.
#[tactic(auto, using(crate::proofs::Texts::gathered))]
fn texts_once(alloc: Global, names: &[Name]) -> Result<List<Text>, NoMemory>
    ensures { IfOk result (λ texts. texts ≡ texts_once [] names.now) }
{
    let mut seen = IndexSet::new(alloc);
    let mut texts = List::new(alloc);
    for name in names {
        add_once(&mut seen, &mut texts, &name.text)?;
    }
    Ok(texts)
}

/// The texts of names in the order of their first places.
fn by_first_place(alloc: Global, mut names: Vec<Name>) -> Result<List<Text>, NoMemory>
    ensures { IfOk result (λ texts. texts ≡ texts_once [] (by_place names.items)) }
{
    sort_by_place(&mut names)?;
    texts_once(alloc, names.as_slice())
}

/// The type variables of a type, each once, in the order of their first places, as a `val` of a signature closes over
/// them.
pub fn variables_in_type(alloc: Global, ty: &Ty) -> Result<List<Text>, NoMemory>
    ensures { IfOk result (λ texts. texts ≡ texts_once [] (by_place (tyvars_of_ty (ty_phrase ty.now)))) }
{
    let mut met = Vec::new(alloc);
    walk_ty(&mut met, ty)?;
    by_first_place(alloc, met)
}

/// The type variables that stand unguarded in a `val` with these bindings, and these behind `rec`, each once, in the
/// order of their first places: those of its patterns and expressions, and none that stands in a `val` inside them (The
/// Definition of Standard ML, section 4.6).
pub fn variables_in_val(
    alloc: Global,
    binds: &List<Rule>,
    recs: &List<Rule>,
) -> Result<List<Text>, NoMemory>
    ensures { IfOk result (λ texts. texts
        ≡ written_in (rules_of (map rule_phrase binds.now)) (rules_of (map rule_phrase recs.now))) }
{
    let mut met = Vec::new(alloc);
    walk_rules(&mut met, binds.as_slice())?;
    walk_rules(&mut met, recs.as_slice())?;
    by_first_place(alloc, met)
}
