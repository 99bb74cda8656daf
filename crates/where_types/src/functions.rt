//! Type functions of type phrases.

ghost use Rattle.std.specs.Prelude.{◌≡◌};
ghost use Rattle.semantic_objects.specs.declared.entry.ValueEntry.{ValueEntry};
ghost use Rattle.type_nodes.specs.Tables.{Table};
ghost use Rattle.bare_phrases.specs.PhraseOf.{ty_phrase};
ghost use Rattle.core_scopes.specs.Scopes.{IsScopeOf};
ghost use Rattle.type_phrases.specs.Inferred.{Answers, scope_in};
ghost use Rattle.type_phrases.specs.Steps.{OnlyMakes};
ghost use Rattle.type_declarations.specs.Binding.{infer_function};
ghost use Rattle.signature_specs.specs.Variables.{IsListIn};

use cm_base::Fault;
use core_scopes::Scope;
use name_trails::NameTrail;
use semantic_objects::TypeFn;
use signature_specs::type_under;
use sml_modules::EnvGraph;
use sml_trees::Ty;
use sml_types::TypeTable;
use std::alloc::Global;

/// The type function of a phrase under the variables of a list alone. The scope is left as it was.
pub(crate) fn function_under<V: Copy + Drop>(
    alloc: Global,
    g: &EnvGraph,
    t: &mut TypeTable,
    scope: &mut Scope<V>,
    list: &NameTrail<usize>,
    phrase: &Ty,
) -> Result<TypeFn, Fault>
    requires scope { IsScopeOf g.now scope.old }
    requires list { IsListIn t.old list.now }
    ensures infers { (u : Table) (read : V → ValueEntry)
        → Answers (infer_function (scope_in g.now u read scope.old) list.now (ty_phrase phrase.now))
        (λ function. function) result }
    ensures makes { OnlyMakes t.old t.new }
    ensures scope { scope.new ≡ scope.old }
{
    let made = type_under(alloc, g, t, scope, list, phrase)?;
    match u32::try_from(list.len()) {
        Ok(arity) => {
            let body = made.tree;
            Ok(TypeFn { arity, body })
        }
        Err(_) => Err(Fault::NoMemory),
    }
}
