//! A `val`: its bindings in the scope with its own type variables, and its end.

ghost use Rattle.std.specs.Prelude.{map};
ghost use Rattle.bare_phrases.specs.PhraseOf.{dec_phrase, rule_phrase};
ghost use Rattle.type_nodes.specs.Tables.{IsFrontOf, state};
ghost use Rattle.type_schemes.specs.Schemes.{HaveAll};
ghost use Rattle.core_rules.specs.Moments.{moment};
ghost use Rattle.core_rules.specs.Ready.{IsReadyAt, IsReadyUnder};
ghost use Rattle.core_rules.specs.Values.{AreRecsUnder};
ghost use Rattle.value_closing.specs.Groups.{groups_of};
ghost use Rattle.core_elab.specs.Vals.{AreRecsOf, IsBehindBinds, IsValOf, IsOfValues};

use crate::binds::elab_binds;
use crate::patterns::rec_patterns;
use crate::ready::{are_there, is_behind_binds, is_ready, is_ready_under, is_since};
use crate::rec_exps::elab_rec_exps;
use cm_base::{Fault, List};
use core_rules::enter_variables;
use core_scopes::Made;
use name_trails::NameTrail;
use pattern_elab::{CoreScope, OwnVariable};
use semantic_objects::TyId;
use sml_modules::EnvGraph;
use sml_trees::{Dec, Rule};
use sml_types::TypeTable;
use std::alloc::Global;
use type_nodes::Mark;
use value_closing::{BoundGroup, close_val, own_variables};

/// The expressions of `rec` bindings under the variables of their patterns, which are left again.
#[cycle(elab_in_scope)]
fn elab_recs_under(
    alloc: Global,
    g: &mut EnvGraph,
    t: &mut TypeTable,
    scope: &mut CoreScope,
    bound: &NameTrail<OwnVariable>,
    recs: &[Rule],
    types: &List<TyId>,
) -> Result<(), Fault>
    requires scope { IsReadyUnder (moment g.old t.old scope.old) bound.now }
    requires types { HaveAll t.old types.now }
    ensures { AreRecsUnder (moment g.old t.old scope.old) bound.now (map rule_phrase recs.now) types.now
        (moment g.new t.new scope.new) result }
{
    let before = scope.mark();
    enter_variables(scope, bound)?;
    is_ready(g, t, scope);
    let result = elab_rec_exps(alloc, g, t, scope, recs, types);
    scope.leave(before);
    result
}

/// The expressions of the `rec` bindings of a `val` under the variables of their patterns, which are left again. Another
/// declaration is answered as want of memory is.
#[cycle(elab_in_scope)]
fn elab_recs_of(
    alloc: Global,
    g: &mut EnvGraph,
    t: &mut TypeTable,
    scope: &mut CoreScope,
    bound: &NameTrail<OwnVariable>,
    dec: &Dec,
    types: &List<TyId>,
) -> Result<(), Fault>
    requires scope { IsReadyUnder (moment g.old t.old scope.old) bound.now }
    requires types { HaveAll t.old types.now }
    ensures { AreRecsOf (moment g.old t.old scope.old) bound.now (dec_phrase dec.now) types.now
        (moment g.new t.new scope.new) result }
{
    match dec {
        Dec::Val(_, _, recs, _) => {
            elab_recs_under(alloc, g, t, scope, bound, recs.as_slice(), types)
        }
        _ => Err(Fault::NoMemory),
    }
}

/// The `rec` bindings of a `val` behind its plain ones, and its end by a mark from before it, in the scope with its own
/// type variables, which is left as it was. Another declaration is answered as want of memory is.
#[cycle(elab_in_scope)]
fn elab_behind_binds(
    alloc: Global,
    g: &mut EnvGraph,
    t: &mut TypeTable,
    scope: &mut CoreScope,
    dec: &Dec,
    own: &NameTrail<usize>,
    since: &Mark,
    bound: NameTrail<OwnVariable>,
    groups: List<BoundGroup>,
) -> Result<Made<OwnVariable>, Fault>
    requires { IsBehindBinds (dec_phrase dec.now) bound (groups_of groups) since.now (moment g.old t.old scope.old) }
    ensures { (behind : IsBehindBinds (dec_phrase dec.now) bound (groups_of groups) since.now
        (moment g.old t.old scope.old)) → IsValOf behind.from (state since.now).next own.now (dec_phrase dec.now)
        (moment g.new t.new scope.new) result }
{
    match dec {
        Dec::Val(_, _, recs, at) => {
            let recursive = recs.as_slice();
            let mut bound = bound;
            let mut groups = groups;
            t.is_kept();
            let pats = rec_patterns(alloc, g, t, scope, recursive, &mut bound, &mut groups)?;
            is_ready_under(g, t, scope, &pats.bound);
            are_there(t, &pats.types);
            elab_recs_of(alloc, g, t, scope, &pats.bound, dec, &pats.types)?;
            close_val(alloc, g, t, *at, own, groups, since)
        }
        _ => Err(Fault::NoMemory),
    }
}

/// The bindings of a `val`, and its end by a mark from before it, in the scope with its own type variables, which is
/// left as it was. Another declaration is answered as want of memory is.
#[cycle(elab_in_scope)]
fn elab_val_under(
    alloc: Global,
    g: &mut EnvGraph,
    t: &mut TypeTable,
    scope: &mut CoreScope,
    dec: &Dec,
    own: &NameTrail<usize>,
    since: &Mark,
) -> Result<Made<OwnVariable>, Fault>
    requires scope { IsReadyAt (moment g.old t.old scope.old) }
    requires front { IsFrontOf since.now t.old }
    ensures { IsValOf (moment g.old t.old scope.old) (state since.now).next own.now (dec_phrase dec.now)
        (moment g.new t.new scope.new) result }
{
    match dec {
        Dec::Val(_, binds, _, _) => {
            let plain = binds.as_slice();
            let mut bound = NameTrail::new(alloc);
            let mut groups = List::new(alloc);
            elab_binds(alloc, g, t, scope, plain, &mut bound, &mut groups)?;
            is_behind_binds(g, t, scope, dec, &bound, &groups, since);
            elab_behind_binds(alloc, g, t, scope, dec, own, since, bound, groups)
        }
        _ => Err(Fault::NoMemory),
    }
}

/// A `val`: what is bound in scope behind it. The scope is left as it was. Another declaration is answered as want of
/// memory is. The Definition of Standard ML (Revised), sections 4.6 to 4.8 and rule 15.
#[cycle(elab_in_scope)]
pub(crate) fn elab_val(
    alloc: Global,
    g: &mut EnvGraph,
    t: &mut TypeTable,
    scope: &mut CoreScope,
    dec: &Dec,
) -> Result<Made<OwnVariable>, Fault>
    requires { IsReadyAt (moment g.old t.old scope.old) }
    ensures { IsOfValues (moment g.old t.old scope.old) (dec_phrase dec.now) (moment g.new t.new scope.new) result }
{
    match dec {
        Dec::Val(tyvars, binds, recs, _) => {
            let since = t.mark();
            let before = scope.mark();
            let names = tyvars.as_slice();
            let own = own_variables(alloc, g, t, scope, names, binds, recs)?;
            is_ready(g, t, scope);
            is_since(&since, t);
            let result = elab_val_under(alloc, g, t, scope, dec, &own, &since);
            scope.leave(before);
            result
        }
        _ => Err(Fault::NoMemory),
    }
}
