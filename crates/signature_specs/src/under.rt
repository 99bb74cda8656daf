//! Types of specifications under their own type variables.

ghost use Rattle.std.specs.Prelude.{◌≡◌, IfOk};
ghost use Rattle.semantic_objects.specs.declared.entry.ValueEntry.{ValueEntry};
ghost use Rattle.unification.specs.Closing.{closed_over};
ghost use Rattle.type_nodes.specs.Tables.{Table, type_of};
ghost use Rattle.bare_phrases.specs.PhraseOf.{ty_phrase};
ghost use Rattle.static_semantics.specs.Inferring.{with_written_alone};
ghost use Rattle.static_semantics.specs.TypeInference.{infer_ty, as_written, numbers};
ghost use Rattle.core_scopes.specs.Scopes.{IsScopeOf};
ghost use Rattle.type_phrases.specs.Inferred.{Answers, scope_in};
ghost use Rattle.type_phrases.specs.Steps.{OnlyMakes};
ghost use Rattle.signature_specs.specs.Variables.{IsListIn};

use crate::variables::{first_of, written_list};
use cm_base::Fault;
use core_scopes::Scope;
use listed_types::{ListedType, elab_listed};
use name_trails::NameTrail;
use sml_modules::EnvGraph;
use sml_trees::Ty;
use sml_types::TypeTable;
use std::alloc::Global;

/// The type that a phrase stands for where these type variables are in scope and no others, as a tree that is closed
/// over them. The scope is left as it was.
pub fn type_under<V: Copy + Drop>(
    alloc: Global,
    g: &EnvGraph,
    t: &mut TypeTable,
    scope: &mut Scope<V>,
    list: &NameTrail<usize>,
    ty: &Ty,
) -> Result<ListedType, Fault>
    requires scope { IsScopeOf g.now scope.old }
    requires list { IsListIn t.old list.now }
    ensures infers { (u : Table) (read : V → ValueEntry)
        → Answers (infer_ty (with_written_alone (as_written list.now) (scope_in g.now u read scope.old)) (ty_phrase ty.now))
        (λ made. type_of t.new made.id) result }
    ensures tree { IfOk result (λ made. made.tree ≡ closed_over (numbers list.now) (type_of t.new made.id)) }
    ensures makes { OnlyMakes t.old t.new }
    ensures scope { scope.new ≡ scope.old }
{
    let first = first_of(list);
    let count = list.len();
    let written = written_list(alloc, list)?;
    let before = scope.mark();
    scope.bind_written_alone(&written)?;
    let made = elab_listed(alloc, g, t, scope, first, count, ty);
    scope.leave(before);
    made
}
