//! Expressions without parts: constants and names.

ghost use Rattle.std.specs.Prelude.{IfOk};
ghost use Rattle.unification.specs.Unification.{depth};
ghost use Rattle.type_nodes.specs.Tables.{Has};
ghost use Rattle.bare_phrases.specs.Phrases.{ExpPhrase};
ghost use Rattle.static_semantics.specs.BasicTypes.{int_ty, string_ty, char_ty};
ghost use Rattle.static_semantics.specs.Inferring.{sized_exp};
ghost use Rattle.static_semantics.specs.CoreInference.{infer_exp};
ghost use Rattle.type_phrases.specs.Inferred.{Inferred, KeepsTypes, progress, home_scope};
ghost use Rattle.pattern_elab.specs.Scopes.{scope_of, IsCoreScope};

use cm_base::Fault;
use pattern_elab::{CoreScope, char_type, instance, int_type, known_value, sized, string_type};
use semantic_objects::TyId;
use sml_modules::EnvGraph;
use sml_trees::{At, LongName};
use sml_types::TypeTable;
use std::alloc::Global;

/// The type of an integer.
pub fn elab_int(alloc: Global, g: &EnvGraph, t: &mut TypeTable, at: At) -> Result<TyId, Fault>
    ensures infers { Inferred (sized_exp (home_scope g.now) at (int_ty, progress t.old g.now)) result t.new g.now }
    ensures has { IfOk result (Has t.new) }
    ensures ids { KeepsTypes t.old t.new }
{
    let id = int_type(alloc, t)?;
    sized(alloc, g, t, at, id)
}

/// The type of a string.
pub fn elab_string(alloc: Global, g: &EnvGraph, t: &mut TypeTable, at: At) -> Result<TyId, Fault>
    ensures infers { Inferred (sized_exp (home_scope g.now) at (string_ty, progress t.old g.now)) result t.new g.now }
    ensures has { IfOk result (Has t.new) }
    ensures ids { KeepsTypes t.old t.new }
{
    let id = string_type(alloc, t)?;
    sized(alloc, g, t, at, id)
}

/// The type of a character.
pub fn elab_char(alloc: Global, g: &EnvGraph, t: &mut TypeTable, at: At) -> Result<TyId, Fault>
    ensures infers { Inferred (sized_exp (home_scope g.now) at (char_ty, progress t.old g.now)) result t.new g.now }
    ensures has { IfOk result (Has t.new) }
    ensures ids { KeepsTypes t.old t.new }
{
    let id = char_type(alloc, t)?;
    sized(alloc, g, t, at, id)
}

/// The type of a name: an instance of what it stands for. 30 at it where it stands for nothing, 38 at the place where
/// the instance is too large. The Definition of Standard ML (Revised), rule 2.
#[tactic(auto, using(crate::proofs::Leaves::named_failed, type_phrases::proofs::Keeping::keeps_all))]
pub fn elab_long(
    alloc: Global,
    g: &EnvGraph,
    t: &mut TypeTable,
    scope: &CoreScope,
    long: &LongName,
    at: At,
) -> Result<TyId, Fault>
    requires { IsCoreScope g.now t.old scope.now }
    ensures infers { Inferred (infer_exp depth (scope_of g.now scope.now) (ExpPhrase.Long long.now at)
        (progress t.old g.now)) result t.new g.now }
    ensures has { IfOk result (Has t.new) }
    ensures ids { KeepsTypes t.old t.new }
{
    let value = known_value(alloc, g, scope, long)?;
    let named = instance(t, scope, long, &value)?;
    sized(alloc, g, t, at, named)
}
