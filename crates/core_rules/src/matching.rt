//! The types of a match's rules, which are those of the first one.

ghost use Rattle.std.specs.Prelude.{◌≡◌, IfOk, IfSome};
ghost use Rattle.std.specs.Option.{option_map};
ghost use Rattle.type_nodes.specs.Tables.{Has, type_of};
ghost use Rattle.sml_modules.specs.Graphs.{Graph};
ghost use Rattle.bare_phrases.specs.Phrases.{Rules};
ghost use Rattle.bare_phrases.specs.PhraseOf.{pat_phrase};
ghost use Rattle.type_phrases.specs.Inferred.{progress};
ghost use Rattle.pattern_elab.specs.Scopes.{IsCoreScope};
ghost use Rattle.core_rules.specs.Rules.{IsRule};
ghost use Rattle.core_rules.specs.Moments.{moment};
ghost use Rattle.core_rules.specs.Ready.{IsReadyAt, IsReadyUnder};
ghost use Rattle.core_rules.specs.Expressions.{HasFirst, IsRulePat, as_first, match_on, sides_in};

use crate::places::place_of_pat;
use crate::rules::no_rules;
use cm_base::Fault;
use name_trails::NameTrail;
use pattern_elab::{CoreScope, OwnVariable, elab_pat, unify_at};
use semantic_objects::TyId;
use sml_modules::EnvGraph;
use sml_trees::{At, Pat};
use sml_types::TypeTable;
use std::alloc::Global;

/// The type of a rule's pattern, and that of its expression.
#[derive(Clone, Copy)]
pub struct RuleType {
    pub from: TyId,
    pub to: TyId,
}

/// The type that patterns get.
fn from_of(first: Option<RuleType>) -> Option<TyId>
    ensures { result ≡ option_map (λ sides. sides.from) first }
{
    match first {
        Some(sides) => Some(sides.from),
        None => None,
    }
}

/// The type that expressions get.
pub fn to_of(first: Option<RuleType>) -> Option<TyId>
    ensures { result ≡ option_map (λ sides. sides.to) first }
{
    match first {
        Some(sides) => Some(sides.to),
        None => None,
    }
}

/// The type of a pattern or of an expression of a rule, after that of the first rule, with which it is made one.
pub fn as_first(
    alloc: Global,
    g: &EnvGraph,
    t: &mut TypeTable,
    at: At,
    first: Option<TyId>,
    id: TyId,
) -> Result<TyId, Fault>
    requires first { IfSome first (Has t.old) }
    requires id { Has t.old id }
    ensures { IsRule g.now t.old t.new (λ sc. as_first sc at (option_map (type_of t.old) first) (type_of t.old id)
        (progress t.old g.now)) result }
{
    match first {
        Some(first) => {
            unify_at(alloc, g, t, at, id, first)?;
            Ok(first)
        }
        None => Ok(id),
    }
}

/// The type of a rule's pattern, which is made that of the first rule's, and the variables that it binds.
pub fn rule_pattern(
    alloc: Global,
    g: &EnvGraph,
    t: &mut TypeTable,
    scope: &CoreScope,
    first: Option<RuleType>,
    pat: &Pat,
) -> Result<(TyId, NameTrail<OwnVariable>), Fault>
    requires scope { IsCoreScope g.now t.old scope.now }
    requires first { HasFirst t.old first }
    ensures pattern { IsRulePat (moment g.now t.old scope.now) first (pat_phrase pat.now)
        (moment g.now t.new scope.now) result }
    ensures core { IsCoreScope g.now t.new scope.now }
    ensures ready { IfOk result (λ made. IsReadyAt (moment g.now t.old scope.now)
        → IsReadyUnder (moment g.now t.new scope.now) made.1) }
{
    let mut bound = NameTrail::new(alloc);
    let id = elab_pat(alloc, g, t, scope, pat, &mut bound)?;
    t.is_kept();
    let from = as_first(alloc, g, t, place_of_pat(pat), from_of(first), id)?;
    t.is_kept();
    Ok((from, bound))
}

/// The type of a match, behind its rules.
pub fn match_type(t: &mut TypeTable, first: Option<RuleType>) -> Result<TyId, Fault>
    requires { HasFirst t.old first }
    ensures { (g : Graph) → IsRule g t.old t.new
        (λ sc. match_on sc (option_map (sides_in t.old) first) Rules.EndOfRules (progress t.old g)) result }
{
    match first {
        Some(sides) => Ok(t.arrow(sides.from, sides.to)?),
        None => no_rules(t),
    }
}
