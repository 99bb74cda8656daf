//! The patterns of `rec` bindings, one after another.

ghost use Rattle.std.specs.Prelude.{◌≡◌, drop, map, IfOk};
ghost use Rattle.bare_phrases.specs.PhraseOf.{rule_phrase};
ghost use Rattle.pattern_elab.specs.Scopes.{IsCoreScope};
ghost use Rattle.value_closing.specs.Groups.{groups_of};
ghost use Rattle.value_closing.specs.Recursive.{IsRecPat, AreRecPats};

use crate::binding::add_binding;
use crate::group::{BoundGroup, rows_since};
use crate::recursive::check_recursive;
use cm_base::{Fault, List, NoMemory};
use name_trails::NameTrail;
use pattern_elab::{CoreScope, OwnVariable, elab_pat};
use semantic_objects::TyId;
use sml_modules::EnvGraph;
use sml_trees::Rule;
use sml_types::TypeTable;
use std::alloc::Global;

/// The type of one pattern, behind what was bound before, and 34 at it where it isn't a variable. Its binding is added
/// behind others.
fn elab_rec_pat(
    alloc: Global,
    g: &EnvGraph,
    t: &mut TypeTable,
    scope: &CoreScope,
    rule: &Rule,
    bound: &mut NameTrail<OwnVariable>,
    groups: &mut List<BoundGroup>,
) -> Result<TyId, Fault>
    requires { IsCoreScope g.now t.old scope.now }
    ensures { IsRecPat g.now t.old scope.now (rule_phrase rule.now) t.new bound.old bound.new (groups_of groups.old)
        (groups_of groups.new) result }
{
    let start = bound.len();
    let ty = elab_pat(alloc, g, t, scope, &rule.pat, bound)?;
    check_recursive(alloc, g, scope, &rule.pat)?;
    add_binding(alloc, g, scope, &rule.exp, bound, start, groups)?;
    Ok(ty)
}

/// The types of the patterns of `rec` bindings, after the variables that were bound before in the `val`; their own are
/// bound behind them, and their bindings added behind others, each with whether its right side is nonexpansive where
/// these variables aren't in scope yet. The first of what a pattern is refused for is answered, and 34 at a pattern that
/// isn't a variable, with types or without; then some of it may be bound and known. The Definition of Standard ML
/// (Revised), rule 26 and sections 2.9 and 4.7.
pub fn elab_rec_pats(
    alloc: Global,
    g: &EnvGraph,
    t: &mut TypeTable,
    scope: &CoreScope,
    recs: &[Rule],
    bound: &mut NameTrail<OwnVariable>,
    groups: &mut List<BoundGroup>,
) -> Result<List<TyId>, Fault>
    requires { IsCoreScope g.now t.old scope.now }
    ensures { AreRecPats g.now t.old scope.now (map rule_phrase recs.now) t.new bound.old bound.new
        (groups_of groups.old) (groups_of groups.new) result }
{
    let mut types = List::new(alloc);
    for rule in recs {
        types.add(elab_rec_pat(alloc, g, t, scope, rule, bound, groups)?)?;
    }
    Ok(types)
}

/// The variables that were bound from a place on, by themselves, to be entered into a scope.
pub fn variables_since(
    alloc: Global,
    bound: &NameTrail<OwnVariable>,
    start: usize,
) -> Result<NameTrail<OwnVariable>, NoMemory>
    ensures { IfOk result (λ since. since ≡ drop start bound.now) }
{
    let rows = rows_since(bound.rows(), start);
    let mut since = NameTrail::new(alloc);
    for row in rows {
        since.bind(row.0.copy()?, row.1)?;
    }
    Ok(since)
}
