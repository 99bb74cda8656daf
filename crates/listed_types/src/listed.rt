//! Type phrases under the variables of a list.

ghost use Rattle.std.specs.Prelude.{◌≡◌, IfOk, OnErr};
ghost use Rattle.semantic_objects.specs.declared.entry.ValueEntry.{ValueEntry};
ghost use Rattle.unification.specs.Closing.{closed_over};
ghost use Rattle.type_nodes.specs.Tables.{Has, state, type_of, whole};
ghost use Rattle.bare_phrases.specs.PhraseOf.{ty_phrase};
ghost use Rattle.static_semantics.specs.TypeInference.{infer_ty};
ghost use Rattle.static_semantics.specs.DatatypeInference.{counted};
ghost use Rattle.core_scopes.specs.Scopes.{written_of};
ghost use Rattle.type_phrases.specs.Inferred.{Answers, IsScopeOver, KeepsTypes, scope_in};
ghost use Rattle.listed_types.specs.Firm.{AreAlone};

use crate::closed::closed_over_list;
use crate::firm::is_firm;
use cm_base::{Fault, NoMemory};
use core_scopes::Scope;
use semantic_objects::{TyId, TypeTree};
use sml_modules::EnvGraph;
use sml_trees::Ty;
use sml_types::TypeTable;
use std::alloc::Global;
use type_phrases::elab_ty;

/// A type that a phrase stands for: as an id of the table, and as a tree that is closed over the variables of a list.
#[derive(Drop)]
pub struct ListedType {
    pub id: TyId,
    pub tree: TypeTree,
}

/// The type that a phrase stands for, of which nothing is put in: what it was made as is what it is.
fn elab_firm<V: Copy + Drop>(
    alloc: Global,
    g: &EnvGraph,
    t: &mut TypeTable,
    scope: &Scope<V>,
    phrase: &Ty,
) -> Result<TyId, Fault>
    requires scope { IsScopeOver g.now t.old scope.now }
    requires alone { AreAlone t.old (written_of scope.now) }
    ensures infers { (read : V → ValueEntry)
        → Answers (infer_ty (scope_in g.now t.old read scope.now) (ty_phrase phrase.now)) (type_of t.new) result }
    ensures whole { IfOk result (λ id. whole t.new id ≡ type_of t.new id) }
    ensures has { IfOk result (Has t.new) }
    ensures state { state t.new ≡ state t.old }
    ensures ids { KeepsTypes t.old t.new }
    ensures refused { OnErr result (t.new ≡ t.old) }
{
    if is_firm(g, scope, phrase)? {
        elab_ty(alloc, g, t, scope, phrase)
    } else {
        Err(Fault::NoMemory)
    }
}

/// The type that a phrase stands for in a scope whose written type variables are those of a list, each for itself: so
/// many variables of the table from a first one on. It is refused as `elab_ty` refuses it; a refusal leaves the table
/// as it was. The Definition of Standard ML (Revised), rules 27 and 29.
pub fn elab_listed<V: Copy + Drop>(
    alloc: Global,
    g: &EnvGraph,
    t: &mut TypeTable,
    scope: &Scope<V>,
    first: usize,
    count: usize,
    phrase: &Ty,
) -> Result<ListedType, Fault>
    requires scope { IsScopeOver g.now t.old scope.now }
    requires alone { AreAlone t.old (written_of scope.now) }
    ensures infers { (read : V → ValueEntry)
        → Answers (infer_ty (scope_in g.now t.old read scope.now) (ty_phrase phrase.now))
        (λ made. type_of t.new made.id) result }
    ensures tree { IfOk result (λ made. made.tree ≡ closed_over (counted count first) (type_of t.new made.id)) }
    ensures has { IfOk result (λ made. Has t.new made.id) }
    ensures state { state t.new ≡ state t.old }
    ensures ids { KeepsTypes t.old t.new }
    ensures refused { OnErr result (t.new ≡ t.old) }
{
    let before = t.mark();
    let id = elab_firm(alloc, g, t, scope, phrase)?;
    match closed_over_list(alloc, t, first, count, id) {
        Ok(tree) => Ok(ListedType { id, tree }),
        Err(NoMemory) => {
            t.undo(&before);
            Err(Fault::NoMemory)
        }
    }
}
