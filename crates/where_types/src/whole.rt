//! A signature expression with `where type`.

ghost use Rattle.std.specs.Prelude.{◌≡◌, IfOk};
ghost use Rattle.semantic_objects.specs.declared.entry.ValueEntry.{ValueEntry};
ghost use Rattle.semantic_objects.specs.Environments.{types};
ghost use Rattle.type_nodes.specs.Tables.{Table};
ghost use Rattle.bare_phrases.specs.PhraseOf.{ty_phrase};
ghost use Rattle.sml_modules.specs.Graphs.{env_at, signature_of, HasEnv, HasSigParts};
ghost use Rattle.static_semantics.specs.Inferring.{Scope as Inner, found_at};
ghost use Rattle.core_scopes.specs.Scopes.{seen, IsScopeOf};
ghost use Rattle.type_phrases.specs.Inferred.{Answers, KeepsTypes, progress, scope_in};
ghost use Rattle.where_types.specs.Where.{infer_where, known_function, GrowsByNodes};

use crate::checks::replaced_name;
use crate::functions::function_under;
use crate::replacing::put_function;
use cm_base::Fault;
use core_scopes::Scope;
use semantic_objects::TypeFn;
use sml_modules::{EnvGraph, EnvId, SigParts};
use sml_trees::{At, LongName, Name, Ty};
use sml_types::TypeTable;
use std::alloc::Global;
use type_bindings::list_variables;
use type_phrases::unknown;

/// The type function of a long name in a scope: 30 at it where it stands for no type.
fn function_seen(
    alloc: Global,
    g: &EnvGraph,
    inside: &Scope<()>,
    long: &LongName,
) -> Result<TypeFn, Fault>
    requires { IsScopeOf g.now inside.now }
    ensures { (inner : Inner) (read : Unit {0} → ValueEntry) → inner.home ≡ g.now.home
        → Answers (known_function inner long.now (found_at types long.now.parts (seen g.now read inside.now)))
        (λ function. function) result }
{
    match inside.find_long_type_function(g, long.parts.as_slice())? {
        Some(function) => Ok(function),
        None => Err(unknown(alloc, g, long)),
    }
}

/// .. in an environment.
fn function_in(alloc: Global, g: &EnvGraph, env: EnvId, long: &LongName) -> Result<TypeFn, Fault>
    requires { HasEnv g.now env }
    ensures { (inner : Inner) → inner.home ≡ g.now.home
        → Answers (known_function inner long.now (found_at types long.now.parts (env_at g.now env)))
        (λ function. function) result }
{
    let inside: Scope<()> = Scope::new(alloc, env);
    function_seen(alloc, g, &inside, long)
}

/// The signature `sig where type tyvars long = ty`, of an open signature. 40 at a type variable that stands in the list
/// before; 30 at the long name, which is looked up in the signature alone; the type, in the scope around the signature,
/// in which the variables of the list and no others are; then at a place 35 where the list has another length than the
/// long name's type takes arguments; 33 where that type is a name alone, flexible or not, which admits equality, and the
/// new type function doesn't; 37 with the long name where it isn't a flexible name alone. The type function then stands
/// in place of the name in all of the signature, by one walk over what is shared once. The scope is left as it was, and
/// all ids keep what they stand for; the table has the variables of the list more, and may have types more.
/// The Definition of Standard ML (Revised), rule 64.
pub fn elab_where<V: Copy + Drop>(
    alloc: Global,
    g: &mut EnvGraph,
    t: &mut TypeTable,
    scope: &mut Scope<V>,
    sig: &SigParts,
    tyvars: &[Name],
    long: &LongName,
    ty: &Ty,
    at: At,
) -> Result<SigParts, Fault>
    requires scope { IsScopeOf g.old scope.old }
    requires sig { HasSigParts g.old sig.now }
    ensures infers { (u : Table) (read : V → ValueEntry)
        → Answers (infer_where (scope_in g.old u read scope.old) tyvars.now long.now (ty_phrase ty.now) at
        (signature_of g.old sig.now) (progress t.old g.old)) (λ made. (signature_of g.new made, progress t.new g.new))
        result }
    ensures there { IfOk result (HasSigParts g.new) }
    ensures keeps { KeepsTypes t.old t.new }
    ensures graph { GrowsByNodes g.old g.new }
    ensures scope { scope.new ≡ scope.old }
{
    t.is_kept();
    let list = list_variables(alloc, g, t, tyvars)?;
    let old = function_in(alloc, g, sig.env, long)?;
    let by = function_under(alloc, g, t, scope, &list, ty)?;
    let name = replaced_name(alloc, g, at, long, &old, &by, &sig.bound)?;
    Ok(put_function(g, sig, name, by)?)
}
