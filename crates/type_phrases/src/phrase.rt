//! Type phrases.

ghost use Rattle.std.specs.Prelude.{◌≡◌, IfOk, OnErr};
ghost use Rattle.semantic_objects.specs.declared.entry.ValueEntry.{ValueEntry};
ghost use Rattle.type_nodes.specs.Tables.{Has, state, type_of};
ghost use Rattle.bare_phrases.specs.PhraseOf.{ty_phrase};
ghost use Rattle.static_semantics.specs.TypeInference.{infer_ty};
ghost use Rattle.type_phrases.specs.Inferred.{Answers, IsScopeOver, KeepsTypes, scope_in};

use crate::reading::read_ty;
use cm_base::Fault;
use core_scopes::Scope;
use semantic_objects::TyId;
use sml_modules::EnvGraph;
use sml_trees::Ty;
use sml_types::TypeTable;
use std::alloc::Global;

/// The type that a phrase stands for in a scope, made in the table: 30 at a type variable or a type constructor that
/// isn't in scope, 35 at a phrase whose type constructor takes another number of arguments, 40 at a label that stands
/// twice; the first of these from left to right. A refusal leaves the table as it was. Arguments of type functions are
/// shared, so it takes as many steps as the phrase and the bodies of the functions that it names have nodes.
/// The Definition of Standard ML (Revised), rules 44 to 48.
pub fn elab_ty<V: Copy + Drop>(
    alloc: Global,
    g: &EnvGraph,
    t: &mut TypeTable,
    scope: &Scope<V>,
    phrase: &Ty,
) -> Result<TyId, Fault>
    requires { IsScopeOver g.now t.old scope.now }
    ensures infers { (read : V → ValueEntry)
        → Answers (infer_ty (scope_in g.now t.old read scope.now) (ty_phrase phrase.now)) (type_of t.new) result }
    ensures has { IfOk result (Has t.new) }
    ensures state { state t.new ≡ state t.old }
    ensures ids { KeepsTypes t.old t.new }
    ensures refused { OnErr result (t.new ≡ t.old) }
{
    let before = t.mark();
    match read_ty(alloc, g, t, scope, phrase) {
        Ok(id) => Ok(id),
        Err(fault) => {
            t.undo(&before);
            Err(fault)
        }
    }
}
