//! Patterns.

ghost use Rattle.std.specs.Prelude.{map};
ghost use Rattle.std.specs.Option.{option_map};
ghost use Rattle.semantic_objects.specs.Symbols.{AreDiffering};
ghost use Rattle.semantic_objects.specs.Tables.{names_of};
ghost use Rattle.bare_phrases.specs.Phrases.{PatPhrase};
ghost use Rattle.bare_phrases.specs.PhraseOf.{ty_phrase, pat_phrase, pat_field_phrase, pat_fields};
ghost use Rattle.type_phrases.specs.Inferred.{HaveRows};
ghost use Rattle.pattern_elab.specs.Scopes.{IsCoreScope};
ghost use Rattle.pattern_elab.specs.Steps.{IsPat, AreFields, IsField};

use crate::constructor::{check_con, sides_of};
use crate::name::elab_long;
use crate::own::{CoreScope, OwnVariable};
use crate::plain::{elab_char, elab_int, elab_string, elab_wild};
use crate::steps::{sized, unify_at};
use crate::typed::{type_variable, written_type};
use crate::value::known_value;
use crate::variable::{bind_variable, check_variable};
use cm_base::Fault;
use name_trails::NameTrail;
use semantic_objects::TyId;
use sml_modules::EnvGraph;
use sml_trees::{At, LongName, Name, Pat, PatField, Ty};
use sml_types::TypeTable;
use std::alloc::Global;
use type_phrases::{check_label, place_of, record_of};

/// The type of a pattern in a scope, after variables that were bound before in it or in the `val` around; its own are
/// bound behind them. The first of 30, 31 to 33, 34, 35, 38 and 40 is answered, and then some of it may be bound and
/// known. The Definition of Standard ML (Revised), rules 32 to 43.
#[cycle(elab_pat)]
pub fn elab_pat(
    alloc: Global,
    g: &EnvGraph,
    t: &mut TypeTable,
    scope: &CoreScope,
    pat: &Pat,
    bound: &mut NameTrail<OwnVariable>,
) -> Result<TyId, Fault>
    requires { IsCoreScope g.now t.old scope.now }
    ensures { IsPat g.now t.old scope.now (pat_phrase pat.now) t.new bound.old bound.new result }
{
    match pat {
        Pat::Wild(at) => elab_wild(alloc, g, t, *at),
        Pat::Int(_, at) => elab_int(alloc, g, t, *at),
        Pat::Str(_, at) => elab_string(alloc, g, t, *at),
        Pat::Char(_, at) => elab_char(alloc, g, t, *at),
        Pat::Long(long, at) => elab_long(alloc, g, t, scope, long, *at, bound),
        Pat::Record(fields, at) => {
            elab_record(alloc, g, t, scope, fields.as_slice(), *at, bound)
        }
        Pat::Con(long, arg, at) => { elab_applied(alloc, g, t, scope, long, arg.get(), *at, bound) }
        Pat::Typed(inner, ty, at) => { elab_typed(alloc, g, t, scope, inner.get(), ty, *at, bound) }
        Pat::As(name, ty, inner, at) => {
            elab_as(alloc, g, t, scope, name, ty, inner.get(), *at, bound)
        }
    }
}

/// A constructor with its argument.
#[cycle(elab_pat)]
fn elab_applied(
    alloc: Global,
    g: &EnvGraph,
    t: &mut TypeTable,
    scope: &CoreScope,
    long: &LongName,
    arg: &Pat,
    at: At,
    bound: &mut NameTrail<OwnVariable>,
) -> Result<TyId, Fault>
    requires { IsCoreScope g.now t.old scope.now }
    ensures { IsPat g.now t.old scope.now (PatPhrase.Con long.now (pat_phrase arg.now) at)
        t.new bound.old bound.new result }
{
    let value = known_value(alloc, g, scope, long)?;
    let id = elab_pat(alloc, g, t, scope, arg, bound)?;
    check_con(alloc, g, at, &value)?;
    let sides = sides_of(alloc, g, t, at, scope, long, &value)?;
    unify_at(alloc, g, t, at, sides.0, id)?;
    sized(alloc, g, t, at, sides.1)
}

/// `inner : ty`
#[cycle(elab_pat)]
fn elab_typed(
    alloc: Global,
    g: &EnvGraph,
    t: &mut TypeTable,
    scope: &CoreScope,
    inner: &Pat,
    ty: &Ty,
    at: At,
    bound: &mut NameTrail<OwnVariable>,
) -> Result<TyId, Fault>
    requires { IsCoreScope g.now t.old scope.now }
    ensures { IsPat g.now t.old scope.now
        (PatPhrase.Typed (pat_phrase inner.now) (ty_phrase ty.now) at) t.new bound.old bound.new result }
{
    let id = elab_pat(alloc, g, t, scope, inner, bound)?;
    let written = written_type(alloc, g, t, scope, ty)?;
    unify_at(alloc, g, t, at, id, written)?;
    sized(alloc, g, t, at, id)
}

/// `name : ty as inner`
#[cycle(elab_pat)]
fn elab_as(
    alloc: Global,
    g: &EnvGraph,
    t: &mut TypeTable,
    scope: &CoreScope,
    name: &Name,
    ty: &Option<Ty>,
    inner: &Pat,
    at: At,
    bound: &mut NameTrail<OwnVariable>,
) -> Result<TyId, Fault>
    requires { IsCoreScope g.now t.old scope.now }
    ensures { IsPat g.now t.old scope.now
        (PatPhrase.As name.now (option_map ty_phrase ty.now) (pat_phrase inner.now) at)
        t.new bound.old bound.new result }
{
    check_variable(alloc, g, scope, at, &name.text)?;
    let variable = bind_variable(alloc, g, t, place_of(name), &name.text, bound)?;
    type_variable(alloc, g, t, scope, at, variable, ty)?;
    let id = elab_pat(alloc, g, t, scope, inner, bound)?;
    unify_at(alloc, g, t, at, variable, id)?;
    sized(alloc, g, t, at, variable)
}

/// A record.
#[cycle(elab_pat)]
fn elab_record(
    alloc: Global,
    g: &EnvGraph,
    t: &mut TypeTable,
    scope: &CoreScope,
    fields: &[PatField],
    at: At,
    bound: &mut NameTrail<OwnVariable>,
) -> Result<TyId, Fault>
    requires { IsCoreScope g.now t.old scope.now }
    ensures { IsPat g.now t.old scope.now
        (PatPhrase.Record (pat_fields (map pat_field_phrase fields.now)) at) t.new bound.old bound.new result }
{
    let rows = elab_fields(alloc, g, t, scope, fields, bound)?;
    let id = record_of(alloc, t, &rows)?;
    sized(alloc, g, t, at, id)
}

/// The types of fields, by label: 40 at a label that an earlier field has.
#[cycle(elab_pat)]
fn elab_fields(
    alloc: Global,
    g: &EnvGraph,
    t: &mut TypeTable,
    scope: &CoreScope,
    fields: &[PatField],
    bound: &mut NameTrail<OwnVariable>,
) -> Result<NameTrail<TyId>, Fault>
    requires { IsCoreScope g.now t.old scope.now }
    ensures { AreFields g.now t.old scope.now (pat_fields (map pat_field_phrase fields.now))
        t.new bound.old bound.new result }
{
    let mut rows = NameTrail::new(alloc);
    for field in fields {
        elab_field(
            alloc,
            g,
            t,
            scope,
            &field.label,
            &field.pat,
            &mut rows,
            bound,
        )?;
    }
    Ok(rows)
}

/// A field behind others.
#[cycle(elab_pat)]
fn elab_field(
    alloc: Global,
    g: &EnvGraph,
    t: &mut TypeTable,
    scope: &CoreScope,
    label: &Name,
    pat: &Pat,
    rows: &mut NameTrail<TyId>,
    bound: &mut NameTrail<OwnVariable>,
) -> Result<(), Fault>
    requires scope { IsCoreScope g.now t.old scope.now }
    requires have { HaveRows t.old rows.old }
    requires differing { AreDiffering (names_of rows.old) }
    ensures { IsField g.now t.old scope.now label.now (pat_phrase pat.now)
        t.new rows.old rows.new bound.old bound.new result }
{
    check_label(alloc, g, rows, label)?;
    let id = elab_pat(alloc, g, t, scope, pat, bound)?;
    rows.bind(label.text.copy()?, id)?;
    Ok(())
}
