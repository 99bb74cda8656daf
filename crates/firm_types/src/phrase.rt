//! Types that are written: whether nothing was put in for their variables.

ghost use Rattle.std.specs.Prelude.{◌≡◌, map, not, IfOk, OnOk};
ghost use Rattle.semantic_objects.specs.declared.entry.ValueEntry.{ValueEntry};
ghost use Rattle.env_parts.specs.Types.{holds_free};
ghost use Rattle.type_nodes.specs.Tables.{Has, state};
ghost use Rattle.bare_phrases.specs.PhraseOf.{ty_phrase, ty_phrases, ty_field_phrase, ty_fields};
ghost use Rattle.core_scopes.specs.Scopes.{IsScopeOf, written_of};
ghost use Rattle.type_phrases.specs.Inferred.{HaveRows, IsScopeOver, scope_in};
ghost use Rattle.firm_types.specs.Firm.{IsFirmPhrase, AreFirmFields, AreFirmArgs, IsFirmId, IsFirmVariable, IsFirmFunction};

use crate::scheme::stands_for_itself;
use cm_base::{List, NoMemory};
use core_scopes::Scope;
use env_parts::type_facts;
use semantic_objects::{TyId, TypeFn, TypeStr};
use sml_modules::EnvGraph;
use sml_trees::{LongName, Name, Ty, TyField};
use sml_types::TypeTable;
use std::alloc::Global;

/// Whether no variable of a table stands in a type function.
fn is_closed(alloc: Global, function: TypeFn) -> Result<bool, NoMemory>
    ensures { IfOk result (λ closed. closed ≡ not (holds_free function.body)) }
{
    let cons = List::new(alloc);
    let facts = type_facts(alloc, &TypeStr { function, cons })?;
    Ok(!facts.has_free)
}

/// What stands for a written type variable: a variable of the table that stands for itself.
fn check_id(alloc: Global, t: &mut TypeTable, id: TyId) -> Result<(), NoMemory>
    requires { Has t.old id }
    ensures firm { OnOk result (IsFirmId t.old id) }
    ensures same { t.new ≡ t.old }
{
    match id {
        TyId::Made(_) => Err(NoMemory),
        TyId::Variable(number) => {
            if stands_for_itself(alloc, t, number)? {
                Ok(())
            } else {
                Err(NoMemory)
            }
        }
    }
}

/// A written type variable.
fn check_variable<V: Copy + Drop>(
    alloc: Global,
    t: &mut TypeTable,
    scope: &Scope<V>,
    name: &Name,
) -> Result<(), NoMemory>
    requires { HaveRows t.old (written_of scope.now) }
    ensures firm { OnOk result (IsFirmVariable t.old scope.now name.now.text) }
    ensures same { t.new ≡ t.old }
{
    match scope.find_written(&name.text) {
        None => Ok(()),
        Some(id) => check_id(alloc, t, id),
    }
}

/// A type constructor: no variable of a table stands in its type function.
fn check_function<V: Copy + Drop>(
    alloc: Global,
    g: &EnvGraph,
    scope: &Scope<V>,
    long: &LongName,
) -> Result<(), NoMemory>
    requires { IsScopeOf g.now scope.now }
    ensures { OnOk result (IsFirmFunction g.now scope.now long.now) }
{
    let found = scope.find_long_type_function(g, long.parts.as_slice())?;
    match found {
        None => Ok(()),
        Some(function) => {
            let closed = is_closed(alloc, function)?;
            if closed { Ok(()) } else { Err(NoMemory) }
        }
    }
}

/// Makes sure that what was put in for variables of the table changes nothing in the type that a phrase stands for, if
/// it stands for one: the written type variables that it names are variables that stand for themselves, and no variable
/// stands in the type functions that it names. Where that isn't so it is refused as want of memory is: a declaration
/// binds no such variables and functions. It takes as many steps as the phrase and the bodies of these functions have
/// nodes.
#[cycle(check_firm)]
pub fn check_firm<V: Copy + Drop>(
    alloc: Global,
    g: &EnvGraph,
    t: &mut TypeTable,
    scope: &Scope<V>,
    phrase: &Ty,
) -> Result<(), NoMemory>
    requires { IsScopeOver g.now t.old scope.now }
    ensures firm { OnOk result ((read : V → ValueEntry)
        → IsFirmPhrase (state t.old).stands (scope_in g.now t.old read scope.now) (ty_phrase phrase.now)) }
    ensures same { t.new ≡ t.old }
{
    match phrase {
        Ty::Var(name, _) => check_variable(alloc, t, scope, name),
        Ty::Record(fields, _) => check_fields(alloc, g, t, scope, fields.as_slice()),
        Ty::Named(args, long, _) => {
            check_args(alloc, g, t, scope, args.as_slice())?;
            check_function(alloc, g, scope, long)
        }
        Ty::Arrow(from, to, _) => {
            check_firm(alloc, g, t, scope, from.get())?;
            check_firm(alloc, g, t, scope, to.get())
        }
    }
}

/// The same of the types of fields.
#[cycle(check_firm)]
fn check_fields<V: Copy + Drop>(
    alloc: Global,
    g: &EnvGraph,
    t: &mut TypeTable,
    scope: &Scope<V>,
    fields: &[TyField],
) -> Result<(), NoMemory>
    requires { IsScopeOver g.now t.old scope.now }
    ensures firm { OnOk result ((read : V → ValueEntry)
        → AreFirmFields (state t.old).stands (scope_in g.now t.old read scope.now)
        (ty_fields (map ty_field_phrase fields.now))) }
    ensures same { t.new ≡ t.old }
{
    for field in fields {
        check_firm(alloc, g, t, scope, &field.ty)?;
    }
    Ok(())
}

/// The same of arguments.
#[cycle(check_firm)]
fn check_args<V: Copy + Drop>(
    alloc: Global,
    g: &EnvGraph,
    t: &mut TypeTable,
    scope: &Scope<V>,
    args: &[Ty],
) -> Result<(), NoMemory>
    requires { IsScopeOver g.now t.old scope.now }
    ensures firm { OnOk result ((read : V → ValueEntry)
        → AreFirmArgs (state t.old).stands (scope_in g.now t.old read scope.now)
        (ty_phrases (map ty_phrase args.now))) }
    ensures same { t.new ≡ t.old }
{
    for arg in args {
        check_firm(alloc, g, t, scope, arg)?;
    }
    Ok(())
}
