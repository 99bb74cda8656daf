//! The type that a phrase stands for.

ghost use Rattle.std.specs.Prelude.{map};
ghost use Rattle.semantic_objects.specs.Environments.{types};
ghost use Rattle.type_nodes.specs.Tables.{Table};
ghost use Rattle.type_schemes.specs.Schemes.{HaveAll};
ghost use Rattle.bare_phrases.specs.PhraseOf.{ty_phrase, ty_phrases, ty_field_phrase, ty_fields};
ghost use Rattle.static_semantics.specs.Inferring.{Scope as Inner, known, found_at};
ghost use Rattle.core_scopes.specs.Scopes.{IsScopeOf};
ghost use Rattle.type_phrases.specs.Inferred.{Answers, IsScopeOver};
ghost use Rattle.type_phrases.specs.Steps.{IsReadAs, IsRead, AreArgs, AreFields, IsApplied};

use crate::diagnostics::{refusal, unknown, unknown_name};
use crate::fields::{check_label, record_of};
use cm_base::{Fault, List};
use core_scopes::Scope;
use name_trails::NameTrail;
use semantic_objects::{TyId, TypeStr};
use sml_modules::EnvGraph;
use sml_trees::{At, LongName, Ty, TyField};
use sml_types::TypeTable;
use std::alloc::Global;

/// The type structure of a long name: 30 at it where it stands for none.
fn type_named<V: Copy + Drop>(
    alloc: Global,
    g: &EnvGraph,
    scope: &Scope<V>,
    long: &LongName,
) -> Result<TypeStr, Fault>
    requires { IsScopeOf g.now scope.now }
    ensures { (t : Table) (inner : Inner) → IsReadAs g.now t scope.now inner
        → Answers (known inner long.now (found_at types long.now.parts inner.env)) (λ found. found) result }
{
    match scope.find_long_type(g, long.parts.as_slice())? {
        Some(found) => Ok(found),
        None => Err(unknown(alloc, g, long)),
    }
}

/// A type constructor with arguments that were read: 30 at its name, 35 at the phrase where they are as many as it
/// doesn't take.
fn applied<V: Copy + Drop>(
    alloc: Global,
    g: &EnvGraph,
    t: &mut TypeTable,
    scope: &Scope<V>,
    args: &List<TyId>,
    long: &LongName,
    at: At,
) -> Result<TyId, Fault>
    requires scope { IsScopeOf g.now scope.now }
    requires args { HaveAll t.old args.now }
    ensures { IsApplied g.now t.old scope.now args.now long.now at t.new result }
{
    let found = type_named(alloc, g, scope, long)?;
    if args.len() != found.function.arity as usize {
        return Err(refusal(g, 35, at, List::new(alloc)));
    }
    Ok(t.apply(&found.function, args)?)
}

/// The type of a phrase. After a refusal the table may have types more.
#[cycle(read_ty)]
pub(crate) fn read_ty<V: Copy + Drop>(
    alloc: Global,
    g: &EnvGraph,
    t: &mut TypeTable,
    scope: &Scope<V>,
    ty: &Ty,
) -> Result<TyId, Fault>
    requires { IsScopeOver g.now t.old scope.now }
    ensures { IsRead g.now t.old scope.now (ty_phrase ty.now) t.new result }
{
    match ty {
        Ty::Var(name, _) => match scope.find_written(&name.text) {
            Some(id) => Ok(id),
            None => Err(unknown_name(alloc, g, name)),
        },
        Ty::Record(fields, _) => {
            let fields = read_fields(alloc, g, t, scope, fields.as_slice())?;
            Ok(record_of(alloc, t, &fields)?)
        }
        Ty::Named(args, long, at) => {
            let args = read_args(alloc, g, t, scope, args.as_slice())?;
            applied(alloc, g, t, scope, &args, long, *at)
        }
        Ty::Arrow(from, to, _) => {
            let from = read_ty(alloc, g, t, scope, from.get())?;
            let to = read_ty(alloc, g, t, scope, to.get())?;
            Ok(t.arrow(from, to)?)
        }
    }
}

/// The types of fields, by label: 40 at a label that an earlier field has.
#[cycle(read_ty)]
fn read_fields<V: Copy + Drop>(
    alloc: Global,
    g: &EnvGraph,
    t: &mut TypeTable,
    scope: &Scope<V>,
    fields: &[TyField],
) -> Result<NameTrail<TyId>, Fault>
    requires { IsScopeOver g.now t.old scope.now }
    ensures { AreFields g.now t.old scope.now (ty_fields (map ty_field_phrase fields.now)) t.new result }
{
    let mut rows = NameTrail::new(alloc);
    for field in fields {
        check_label(alloc, g, &rows, &field.label)?;
        let id = read_ty(alloc, g, t, scope, &field.ty)?;
        rows.bind(field.label.text.copy()?, id)?;
    }
    Ok(rows)
}

/// The types of arguments.
#[cycle(read_ty)]
fn read_args<V: Copy + Drop>(
    alloc: Global,
    g: &EnvGraph,
    t: &mut TypeTable,
    scope: &Scope<V>,
    args: &[Ty],
) -> Result<List<TyId>, Fault>
    requires { IsScopeOver g.now t.old scope.now }
    ensures { AreArgs g.now t.old scope.now (ty_phrases (map ty_phrase args.now)) t.new result }
{
    let mut ids = List::new(alloc);
    for arg in args {
        let id = read_ty(alloc, g, t, scope, arg)?;
        ids.add(id)?;
    }
    Ok(ids)
}
