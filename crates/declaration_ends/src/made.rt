//! The sizes of what a declaration made.

ghost use Rattle.std.specs.Prelude.{◌≡◌, [], eqb, IfOk, OnOk};
ghost use Rattle.std.specs.List.{list_any};
ghost use Rattle.semantic_objects.specs.Tables.{with_entry, with_all};
ghost use Rattle.sml_modules.specs.Graphs.{HasEnvs, type_rows};
ghost use Rattle.type_nodes.specs.Tables.{state};
ghost use Rattle.static_semantics.specs.Inferring.{type_bodies, value_bodies, sized_dec};
ghost use Rattle.core_scopes.specs.Scopes.{entry_of};
ghost use Rattle.core_scopes.specs.Marks.{env_of_made, value_rows};
ghost use Rattle.type_phrases.specs.Inferred.{Answers, home_scope, progress};
ghost use Rattle.pattern_elab.specs.Scopes.{own_entry};
ghost use Rattle.declaration_ends.specs.Sizes.{any_large, large_value, flag, any_flag};

use crate::sizes::{is_large, is_large_type};
use crate::structures::any_structure_large;
use cm_base::{Fault, List, NoMemory, Text};
use core_scopes::{Made, NamedInScope, ValueInScope};
use env_parts::Rows;
use pattern_elab::{OwnVariable, refuse};
use semantic_objects::TyId;
use sml_modules::{EnvGraph, NamedType};
use sml_trees::At;
use sml_types::TypeTable;
use std::alloc::Global;

/// Whether the type of a value is too large. A variable that the table doesn't have is refused as want of memory is.
fn is_large_value(
    alloc: Global,
    t: &mut TypeTable,
    value: &ValueInScope<OwnVariable>,
) -> Result<bool, NoMemory>
    ensures large { IfOk result (λ large. large ≡ large_value (state t.old).stands (entry_of own_entry value.now)) }
    ensures same { t.new ≡ t.old }
{
    match value {
        ValueInScope::Entry(entry) => is_large(
            alloc,
            t,
            entry.scheme.marks().len(),
            entry.scheme.body(),
        ),
        ValueInScope::Own(own) => {
            let id = TyId::Variable(own.number);
            if !t.has(id) {
                return Err(NoMemory);
            }
            let counted = t.sized(id)?;
            Ok(counted > 65_536)
        }
    }
}

/// A fact as a number.
fn flag_of(fact: bool) -> usize
    ensures { result ≡ flag fact }
{
    if fact { 1 } else { 0 }
}

/// Notes under a name whether a type is too large there. Of two of one name the later counts.
fn note(rows: &mut Rows, name: &Text, large: bool) -> Result<(), NoMemory>
    ensures { OnOk result (rows.new ≡ with_entry name.now (flag large) rows.old) }
{
    let name = name.copy()?;
    rows.set(name, flag_of(large))
}

/// Whether one of some numbers is that of a fact that holds.
fn any_holds(flags: &[usize]) -> bool
    ensures { result ≡ list_any (eqb 1) flags.now }
{
    for fact in flags {
        if *fact == 1 {
            return true;
        }
    }
    false
}

/// Whether a type is too large under any name.
fn any_noted(alloc: Global, rows: &Rows) -> Result<bool, NoMemory>
    ensures { IfOk result (λ any. any ≡ any_flag rows.now) }
{
    let flags = rows.places(alloc)?;
    Ok(any_holds(flags.as_slice()))
}

/// Whether a type of the values is too large that stand under their names at last.
fn any_value_large(
    alloc: Global,
    t: &mut TypeTable,
    values: &List<NamedInScope<OwnVariable>>,
) -> Result<bool, NoMemory>
    ensures large { IfOk result (λ large. large
        ≡ any_large (state t.old).stands (value_bodies (with_all (value_rows own_entry values.now) []))) }
    ensures same { t.new ≡ t.old }
{
    let mut rows = Rows::new(alloc);
    for named in values.as_slice() {
        let large = is_large_value(alloc, t, &named.entry)?;
        note(&mut rows, &named.name, large)?;
    }
    any_noted(alloc, &rows)
}

/// Whether a type of the type structures is too large that stand under their names at last.
fn any_type_large(
    alloc: Global,
    t: &mut TypeTable,
    types: &List<NamedType>,
) -> Result<bool, NoMemory>
    ensures large { IfOk result (λ large. large
        ≡ any_large (state t.old).stands (type_bodies (with_all (type_rows types.now) []))) }
    ensures same { t.new ≡ t.old }
{
    let mut rows = Rows::new(alloc);
    for named in types.as_slice() {
        let large = is_large_type(alloc, t, &named.entry)?;
        note(&mut rows, &named.name, large)?;
    }
    any_noted(alloc, &rows)
}

/// The end of a declaration: 38 at its place where a type of what it made has more than 65,536 nodes as it is known now.
/// Of two of one name the later counts. The table is as it was. Each tree is gone through once and not above the limit,
/// and each part of a structure at most once, however often it is shared; one in which no variable of a table stands isn't
/// gone through.
pub fn sized_made(
    alloc: Global,
    g: &EnvGraph,
    t: &mut TypeTable,
    at: At,
    made: &Made<OwnVariable>,
) -> Result<(), Fault>
    requires { HasEnvs g.now made.now.structures }
    ensures answer { Answers
        (sized_dec (home_scope g.now) at (env_of_made g.now own_entry made.now, progress t.old g.now))
        (λ (done : Unit {0}). (env_of_made g.now own_entry made.now, progress t.old g.now)) result }
    ensures same { t.new ≡ t.old }
{
    let large = any_structure_large(alloc, g, t, &made.structures)?;
    if large {
        return Err(refuse(alloc, g, 38, at));
    }
    let large = any_type_large(alloc, t, &made.types)?;
    if large {
        return Err(refuse(alloc, g, 38, at));
    }
    let large = any_value_large(alloc, t, &made.values)?;
    if large {
        return Err(refuse(alloc, g, 38, at));
    }
    Ok(())
}
