//! Patterns without parts: `_` and constants.

ghost use Rattle.std.specs.Prelude.{IfOk};
ghost use Rattle.type_nodes.specs.Tables.{Has};
ghost use Rattle.static_semantics.specs.BasicTypes.{int_ty, string_ty, char_ty};
ghost use Rattle.static_semantics.specs.Inferring.{new_variable, sized_pat};
ghost use Rattle.type_phrases.specs.Inferred.{KeepsTypes, progress, home_scope};
ghost use Rattle.pattern_elab.specs.Steps.{InferredPlain};

use crate::constant::{char_type, int_type, string_type};
use crate::steps::sized;
use cm_base::Fault;
use semantic_objects::TyId;
use sml_modules::EnvGraph;
use sml_trees::At;
use sml_types::TypeTable;
use std::alloc::Global;

/// The type of `_`.
#[tactic(auto, using(type_phrases::proofs::Keeping::keeps_all, type_phrases::proofs::Keeping::keeps_extended))]
pub(crate) fn elab_wild(
    alloc: Global,
    g: &EnvGraph,
    t: &mut TypeTable,
    at: At,
) -> Result<TyId, Fault>
    ensures infers { InferredPlain (λ bound. sized_pat (home_scope g.now) at
        ((new_variable (progress t.old g.now)).0, bound, (new_variable (progress t.old g.now)).1)) result t.new g.now }
    ensures has { IfOk result (Has t.new) }
    ensures ids { KeepsTypes t.old t.new }
{
    t.is_kept();
    let id = t.fresh(false)?;
    sized(alloc, g, t, at, id)
}

/// The type of an integer.
pub(crate) fn elab_int(
    alloc: Global,
    g: &EnvGraph,
    t: &mut TypeTable,
    at: At,
) -> Result<TyId, Fault>
    ensures infers { InferredPlain (λ bound. sized_pat (home_scope g.now) at (int_ty, bound, progress t.old g.now))
        result t.new g.now }
    ensures has { IfOk result (Has t.new) }
    ensures ids { KeepsTypes t.old t.new }
{
    let id = int_type(alloc, t)?;
    sized(alloc, g, t, at, id)
}

/// The type of a string.
pub(crate) fn elab_string(
    alloc: Global,
    g: &EnvGraph,
    t: &mut TypeTable,
    at: At,
) -> Result<TyId, Fault>
    ensures infers { InferredPlain (λ bound. sized_pat (home_scope g.now) at (string_ty, bound, progress t.old g.now))
        result t.new g.now }
    ensures has { IfOk result (Has t.new) }
    ensures ids { KeepsTypes t.old t.new }
{
    let id = string_type(alloc, t)?;
    sized(alloc, g, t, at, id)
}

/// The type of a character.
pub(crate) fn elab_char(
    alloc: Global,
    g: &EnvGraph,
    t: &mut TypeTable,
    at: At,
) -> Result<TyId, Fault>
    ensures infers { InferredPlain (λ bound. sized_pat (home_scope g.now) at (char_ty, bound, progress t.old g.now))
        result t.new g.now }
    ensures has { IfOk result (Has t.new) }
    ensures ids { KeepsTypes t.old t.new }
{
    let id = char_type(alloc, t)?;
    sized(alloc, g, t, at, id)
}
