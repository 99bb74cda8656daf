//! The bindings of a `type` declaration.

ghost use Rattle.std.specs.Prelude.{◌≡◌, [], map, IfOk, OnErr};
ghost use Rattle.semantic_objects.specs.declared.entry.ValueEntry.{ValueEntry};
ghost use Rattle.semantic_objects.specs.Environments.{empty_env};
ghost use Rattle.type_nodes.specs.Tables.{Table};
ghost use Rattle.bare_phrases.specs.PhraseOf.{typ_phrase};
ghost use Rattle.static_semantics.specs.TypeInference.{infer_types};
ghost use Rattle.core_scopes.specs.Scopes.{IsScopeOf};
ghost use Rattle.core_scopes.specs.Marks.{env_of_made};
ghost use Rattle.type_phrases.specs.Inferred.{Answers, KeepsTypes, progress, scope_in};
ghost use Rattle.type_declarations.specs.Binding.{AreBindsStep};

use crate::functions::read_bind;
use cm_base::{Fault, List};
use core_scopes::{Made, Scope};
use name_trails::NameTrail;
use semantic_objects::TypeStr;
use sml_modules::{EnvGraph, NamedType};
use sml_trees::TypBind;
use sml_types::TypeTable;
use std::alloc::Global;

/// The types of a declaration, in written order. The scope is left as it was; the table has the variables of the lists
/// more, also after a refusal.
fn read_binds<V: Copy + Drop>(
    alloc: Global,
    g: &EnvGraph,
    t: &mut TypeTable,
    scope: &mut Scope<V>,
    binds: &[TypBind],
) -> Result<List<NamedType>, Fault>
    requires { IsScopeOf g.now scope.old }
    ensures binds { AreBindsStep g.now t.old scope.old (map typ_phrase binds.now) t.new result }
    ensures scope { scope.new ≡ scope.old }
{
    let mut names = NameTrail::new(alloc);
    let mut made = List::new(alloc);
    for bind in binds {
        let function = read_bind(alloc, g, t, scope, &names, bind)?;
        let cons = List::new(alloc);
        let entry = TypeStr { function, cons };
        let key = bind.name.text.copy()?;
        let name = bind.name.text.copy()?;
        names.bind(key, ())?;
        made.add(NamedType { name, entry })?;
    }
    Ok(made)
}

/// What a `type` declaration binds. For each binding in written order 40 at a variable that stands in its list before,
/// 40 at the name of a type that a binding before has, then the type of its phrase, closed over the list: it is read in
/// the scope as it is outside the declaration, in which no written type variables but those of the list are, and refused
/// as `elab_ty` refuses it. The table has the variables of the lists more then, and no types; a refusal leaves it as it
/// was. The scope is left as it was. The Definition of Standard ML (Revised), rules 16 and 27.
pub fn elab_types<V: Copy + Drop>(
    alloc: Global,
    g: &EnvGraph,
    t: &mut TypeTable,
    scope: &mut Scope<V>,
    binds: &[TypBind],
) -> Result<Made<V>, Fault>
    requires { IsScopeOf g.now scope.old }
    ensures infers { (u : Table) (read : V → ValueEntry) → Answers
        (infer_types (scope_in g.now u read scope.old) (map typ_phrase binds.now) empty_env (progress t.old g.now))
        (λ made. (env_of_made g.now read made, progress t.new g.now)) result }
    ensures structures { IfOk result (λ made. made.structures ≡ []) }
    ensures values { IfOk result (λ made. made.values ≡ []) }
    ensures ids { KeepsTypes t.old t.new }
    ensures refused { OnErr result (t.new ≡ t.old) }
    ensures scope { scope.new ≡ scope.old }
{
    let before = t.mark();
    match read_binds(alloc, g, t, scope, binds) {
        Ok(types) => Ok(Made {
            structures: List::new(alloc),
            types,
            values: List::new(alloc),
        }),
        Err(fault) => {
            t.undo(&before);
            Err(fault)
        }
    }
}
