//! What holds where a phrase is looked at, for the proofs of callers. None of these calls does anything.

ghost use Rattle.bare_phrases.specs.PhraseOf.{dec_phrase};
ghost use Rattle.type_nodes.specs.Keeping.{IsKept};
ghost use Rattle.type_nodes.specs.Tables.{Has, IsFrontOf};
ghost use Rattle.type_schemes.specs.Schemes.{HaveAll};
ghost use Rattle.value_closing.specs.Groups.{groups_of};
ghost use Rattle.core_rules.specs.Moments.{moment};
ghost use Rattle.core_rules.specs.Ready.{IsReadyAt, IsReadyUnder};
ghost use Rattle.core_elab.specs.Vals.{IsBehindBinds};

use cm_base::List;
use name_trails::NameTrail;
use pattern_elab::{CoreScope, OwnVariable};
use semantic_objects::TyId;
use sml_modules::EnvGraph;
use sml_trees::Dec;
use sml_types::TypeTable;
use type_nodes::Mark;
use value_closing::BoundGroup;

/// Everything in scope is of what the table knows, where that follows from what holds of every table.
pub(crate) fn is_ready(g: &EnvGraph, t: &TypeTable, scope: &CoreScope)
    requires { IsKept t.now → IsReadyAt (moment g.now t.now scope.now) }
    ensures { IsReadyAt (moment g.now t.now scope.now) }
{
    t.is_kept();
}

/// .. under the variables of patterns.
pub(crate) fn is_ready_under(
    g: &EnvGraph,
    t: &TypeTable,
    scope: &CoreScope,
    bound: &NameTrail<OwnVariable>,
)
    requires { IsKept t.now → IsReadyUnder (moment g.now t.now scope.now) bound.now }
    ensures { IsReadyUnder (moment g.now t.now scope.now) bound.now }
{
    t.is_kept();
}

/// Nothing was taken back since a mark.
pub(crate) fn is_since(since: &Mark, t: &TypeTable)
    requires { IsFrontOf since.now t.now }
    ensures { IsFrontOf since.now t.now }
{}

/// A type is one of the table.
pub(crate) fn is_there(t: &TypeTable, id: TyId)
    requires { Has t.now id }
    ensures { Has t.now id }
{}

/// Types are of the table.
pub(crate) fn are_there(t: &TypeTable, ids: &List<TyId>)
    requires { HaveAll t.now ids.now }
    ensures { HaveAll t.now ids.now }
{}

/// A `val` stands behind its plain bindings.
pub(crate) fn is_behind_binds(
    g: &EnvGraph,
    t: &TypeTable,
    scope: &CoreScope,
    dec: &Dec,
    bound: &NameTrail<OwnVariable>,
    groups: &List<BoundGroup>,
    since: &Mark,
)
    requires { IsBehindBinds (dec_phrase dec.now) bound.now (groups_of groups.now) since.now (moment g.now t.now scope.now) }
    ensures { IsBehindBinds (dec_phrase dec.now) bound.now (groups_of groups.now) since.now (moment g.now t.now scope.now) }
{}
