//! The patterns of `rec` bindings.

ghost use Rattle.std.specs.Prelude.{◌≡◌, length, drop, map, IfOk};
ghost use Rattle.bare_phrases.specs.PhraseOf.{rule_phrase};
ghost use Rattle.pattern_elab.specs.Scopes.{IsCoreScope};
ghost use Rattle.value_closing.specs.Groups.{groups_of};
ghost use Rattle.value_closing.specs.Recursive.{AreRecPats};
ghost use Rattle.core_elab.specs.Patterns.{types_of};

use cm_base::{Fault, List};
use name_trails::NameTrail;
use pattern_elab::{CoreScope, OwnVariable};
use semantic_objects::TyId;
use sml_modules::EnvGraph;
use sml_trees::Rule;
use sml_types::TypeTable;
use std::alloc::Global;
use value_closing::{BoundGroup, elab_rec_pats, variables_since};

/// The variables of `rec` patterns, and the types of these.
#[derive(Drop)]
pub(crate) struct RecPatterns {
    pub bound: NameTrail<OwnVariable>,
    pub types: List<TyId>,
}

/// The patterns of `rec` bindings, as `elab_rec_pats` has them, with their variables by themselves.
pub(crate) fn rec_patterns(
    alloc: Global,
    g: &EnvGraph,
    t: &mut TypeTable,
    scope: &CoreScope,
    recs: &[Rule],
    bound: &mut NameTrail<OwnVariable>,
    groups: &mut List<BoundGroup>,
) -> Result<RecPatterns, Fault>
    requires { IsCoreScope g.now t.old scope.now }
    ensures pats { AreRecPats g.now t.old scope.now (map rule_phrase recs.now) t.new bound.old bound.new
        (groups_of groups.old) (groups_of groups.new) (types_of result) }
    ensures since { IfOk result (λ pats. pats.bound ≡ drop (length bound.old) bound.new) }
{
    let start = bound.len();
    let types = elab_rec_pats(alloc, g, t, scope, recs, bound, groups)?;
    let since = variables_since(alloc, bound, start)?;
    Ok(RecPatterns {
        bound: since,
        types,
    })
}
