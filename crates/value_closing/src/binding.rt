//! Bindings of a `val`, one more behind others.

ghost use Rattle.std.specs.Prelude.{◌≡◌, ◌∷◌, ◌++◌, [], drop, IfOk, OnOk, OnErr};
ghost use Rattle.bare_phrases.specs.PhraseOf.{exp_phrase};
ghost use Rattle.static_semantics.specs.Nonexpansive as inference;
ghost use Rattle.core_scopes.specs.Scopes.{IsScopeOf};
ghost use Rattle.pattern_elab.specs.Scopes.{bound_of, scope_of};
ghost use Rattle.value_closing.specs.Groups.{groups_of};

use crate::group::{BoundGroup, add_group};
use cm_base::{List, NoMemory};
use name_trails::NameTrail;
use nonexpansive::is_nonexpansive;
use pattern_elab::{CoreScope, OwnVariable};
use sml_modules::EnvGraph;
use sml_trees::Exp;
use std::alloc::Global;

/// Whether the variables of a binding with this right side are closed.
fn closes(g: &EnvGraph, scope: &CoreScope, exp: &Exp) -> Result<bool, NoMemory>
    requires { IsScopeOf g.now scope.now }
    ensures { IfOk result (λ is. is ≡ inference.is_nonexpansive (scope_of g.now scope.now).env (exp_phrase exp.now)) }
{
    Ok(is_nonexpansive(g, scope, exp)?)
}

/// One binding more: the variables that were bound from a place on, of that many as stood before its pattern. They are
/// closed where its right side is nonexpansive in a scope, that of the `val` without the variables of its patterns. Want
/// of memory leaves the bindings as they were. The Definition of Standard ML (Revised), section 4.7.
pub fn add_binding(
    alloc: Global,
    g: &EnvGraph,
    scope: &CoreScope,
    exp: &Exp,
    bound: &NameTrail<OwnVariable>,
    start: usize,
    groups: &mut List<BoundGroup>,
) -> Result<(), NoMemory>
    requires { IsScopeOf g.now scope.now }
    ensures ok { OnOk result (groups_of groups.new ≡ groups_of groups.old
        ++ (inference.is_nonexpansive (scope_of g.now scope.now).env (exp_phrase exp.now), drop start (bound_of bound.now))
        ∷ []) }
    ensures err { OnErr result (groups.new ≡ groups.old) }
{
    let closes = closes(g, scope, exp)?;
    add_group(alloc, groups, closes, bound, start)?;
    Ok(())
}
