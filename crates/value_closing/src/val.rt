//! The end of a `val`.

ghost use Rattle.std.specs.Prelude.{◌≡◌, [], true, IfOk};
ghost use Rattle.unification.specs.Closing.{kept_since};
ghost use Rattle.type_nodes.specs.Tables.{IsFrontOf, state};
ghost use Rattle.static_semantics.specs.Inferring.{Scope};
ghost use Rattle.static_semantics.specs.RuleConditions.{are_distinct, groups_bound};
ghost use Rattle.core_scopes.specs.Marks.{env_of_made};
ghost use Rattle.type_phrases.specs.Inferred.{Answers, progress};
ghost use Rattle.pattern_elab.specs.Scopes.{own_entry};
ghost use Rattle.closing_laws.specs.Variables.{val_end};
ghost use Rattle.value_closing.specs.Groups.{groups_of};

use crate::closing::{all_variables, ids_where};
use crate::group::BoundGroup;
use crate::left::check_left;
use crate::sizes::check_sizes;
use crate::values::values_by;
use cm_base::{Fault, List};
use core_scopes::Made;
use name_trails::NameTrail;
use pattern_elab::OwnVariable;
use sml_modules::EnvGraph;
use sml_trees::At;
use sml_types::TypeTable;
use std::alloc::Global;
use type_nodes::Mark;

/// What a `val` makes when all of it was inferred: its variables, those of nonexpansive right sides closed over what was
/// made since a mark and stands in nothing that stands for an older variable. The mark is one from before the `val`. 37
/// at the `val` where one of its own written type variables stays open, with the first of them in their order; then 38
/// there where a type is too large, before any scheme is made. The variables have names that differ, and one that the
/// table doesn't have is refused as want of memory is. The table stays as it was. It takes as long as what was made
/// since the mark and the types are large. The Definition of Standard ML (Revised), sections 4.6 to 4.8 and rule 15.
pub fn close_val(
    alloc: Global,
    g: &EnvGraph,
    t: &mut TypeTable,
    at: At,
    own: &NameTrail<usize>,
    groups: List<BoundGroup>,
    since: &Mark,
) -> Result<Made<OwnVariable>, Fault>
    requires front { IsFrontOf since.now t.old }
    requires distinct { are_distinct (groups_bound (groups_of groups)) ≡ true }
    ensures answer { (inner : Scope) → inner.home ≡ g.now.home → Answers
        (val_end inner at (kept_since (state since.now).next (state t.old).stands) own.now (groups_of groups)
        (progress t.old g.now))
        (λ made. (env_of_made g.now own_entry made, progress t.old g.now)) result }
    ensures structures { IfOk result (λ made. made.structures ≡ []) }
    ensures same { t.new ≡ t.old }
{
    t.is_kept();
    let variables = all_variables(alloc, groups)?;
    let unclosed = ids_where(alloc, t, variables.as_slice(), false)?;
    check_left(alloc, g, t, at, own, &unclosed, since)?;
    check_sizes(alloc, g, t, at, variables.as_slice())?;
    let closing = ids_where(alloc, t, variables.as_slice(), true)?;
    let schemes = t.generalise_since(&closing, since)?;
    let values = values_by(alloc, t, variables, schemes)?;
    Ok(Made {
        structures: List::new(alloc),
        types: List::new(alloc),
        values,
    })
}
