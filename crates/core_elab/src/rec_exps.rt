//! The expressions of `rec` bindings.

ghost use Rattle.std.specs.Prelude.{map};
ghost use Rattle.bare_phrases.specs.PhraseOf.{rule_phrase};
ghost use Rattle.type_nodes.specs.Tables.{Has};
ghost use Rattle.type_schemes.specs.Schemes.{HaveAll};
ghost use Rattle.core_rules.specs.Moments.{moment};
ghost use Rattle.core_rules.specs.Ready.{IsReadyAt};
ghost use Rattle.core_rules.specs.RecBindings.{IsRecExp, AreRecExps};

use crate::exp::elab_in_scope;
use crate::ready::{is_ready, is_there};
use cm_base::{Fault, List};
use core_rules::{joined, place_of_pat};
use pattern_elab::CoreScope;
use semantic_objects::TyId;
use sml_modules::EnvGraph;
use sml_trees::Rule;
use sml_types::TypeTable;
use std::alloc::Global;

/// One expression, whose type is made that of its pattern, at the pattern.
#[cycle(elab_in_scope)]
fn elab_rec_exp(
    alloc: Global,
    g: &mut EnvGraph,
    t: &mut TypeTable,
    scope: &mut CoreScope,
    rule: &Rule,
    ty: TyId,
) -> Result<(), Fault>
    requires scope { IsReadyAt (moment g.old t.old scope.old) }
    requires ty { Has t.old ty }
    ensures { IsRecExp (moment g.old t.old scope.old) (rule_phrase rule.now) ty (moment g.new t.new scope.new) result }
{
    let exp = elab_in_scope(alloc, g, t, scope, &rule.exp)?;
    joined(alloc, g, t, place_of_pat(&rule.pat), ty, exp)?;
    Ok(())
}

/// All of them, by the types of their patterns, in the scope with the variables of these. Where there are fewer types
/// than bindings that is answered as want of memory is.
#[cycle(elab_in_scope)]
pub(crate) fn elab_rec_exps(
    alloc: Global,
    g: &mut EnvGraph,
    t: &mut TypeTable,
    scope: &mut CoreScope,
    recs: &[Rule],
    types: &List<TyId>,
) -> Result<(), Fault>
    requires scope { IsReadyAt (moment g.old t.old scope.old) }
    requires types { HaveAll t.old types.now }
    ensures { AreRecExps (moment g.old t.old scope.old) (map rule_phrase recs.now) types.now
        (moment g.new t.new scope.new) result }
{
    let mut left = types.as_slice();
    for rule in recs {
        is_ready(g, t, scope);
        match left.split_first() {
            Some((ty, more)) => {
                is_there(t, *ty);
                elab_rec_exp(alloc, g, t, scope, rule, *ty)?;
                left = more;
            }
            None => return Err(Fault::NoMemory),
        }
    }
    Ok(())
}
