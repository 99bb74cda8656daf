//! The plain bindings of a `val`.

ghost use Rattle.std.specs.Prelude.{map};
ghost use Rattle.bare_phrases.specs.PhraseOf.{rule_phrase};
ghost use Rattle.core_rules.specs.Moments.{moment};
ghost use Rattle.core_rules.specs.Ready.{IsReadyAt};
ghost use Rattle.value_closing.specs.Groups.{groups_of};
ghost use Rattle.core_rules.specs.Bindings.{IsBind, AreBinds};

use crate::exp::elab_in_scope;
use crate::ready::is_ready;
use cm_base::{Fault, List};
use core_rules::{joined, place_of_pat};
use name_trails::NameTrail;
use pattern_elab::{CoreScope, OwnVariable, elab_pat};
use sml_modules::EnvGraph;
use sml_trees::Rule;
use sml_types::TypeTable;
use std::alloc::Global;
use value_closing::{BoundGroup, add_binding};

/// One binding: its pattern, its expression, and the one made the other at the pattern.
#[cycle(elab_in_scope)]
fn elab_bind(
    alloc: Global,
    g: &mut EnvGraph,
    t: &mut TypeTable,
    scope: &mut CoreScope,
    rule: &Rule,
    bound: &mut NameTrail<OwnVariable>,
    groups: &mut List<BoundGroup>,
) -> Result<(), Fault>
    requires { IsReadyAt (moment g.old t.old scope.old) }
    ensures { IsBind (moment g.old t.old scope.old) (rule_phrase rule.now) bound.old bound.new (groups_of groups.old)
        (groups_of groups.new) (moment g.new t.new scope.new) result }
{
    let start = bound.len();
    let pat = elab_pat(alloc, g, t, scope, &rule.pat, bound)?;
    is_ready(g, t, scope);
    let exp = elab_in_scope(alloc, g, t, scope, &rule.exp)?;
    joined(alloc, g, t, place_of_pat(&rule.pat), pat, exp)?;
    add_binding(alloc, g, scope, &rule.exp, bound, start, groups)?;
    Ok(())
}

/// All bindings, after those before them.
#[cycle(elab_in_scope)]
pub(crate) fn elab_binds(
    alloc: Global,
    g: &mut EnvGraph,
    t: &mut TypeTable,
    scope: &mut CoreScope,
    rules: &[Rule],
    bound: &mut NameTrail<OwnVariable>,
    groups: &mut List<BoundGroup>,
) -> Result<(), Fault>
    requires { IsReadyAt (moment g.old t.old scope.old) }
    ensures { AreBinds (moment g.old t.old scope.old) (map rule_phrase rules.now) bound.old bound.new
        (groups_of groups.old) (groups_of groups.new) (moment g.new t.new scope.new) result }
{
    for rule in rules {
        is_ready(g, t, scope);
        elab_bind(alloc, g, t, scope, rule, bound, groups)?;
    }
    Ok(())
}
