//! What is asked of the type names of a unit.

ghost use Rattle.std.specs.Prelude.{◌≡◌, [], ◌↔◌, filter, IsTrue, IfOk, OnOk};
ghost use Rattle.sml_modules.specs.Items.{at, as_env, IsEnv};
ghost use Rattle.sml_modules.specs.Graphs.{top_at, HasTop};
ghost use Rattle.realisation.specs.Names.{names_in_env};
ghost use Rattle.realisation.specs.Canonical.{is_own, is_bound_name};
ghost use Rattle.interface_format.specs.Rules.{AreNumbered, Agree, HasNames};
ghost use Rattle.canonical_interfaces.specs.Fair.{is_other};
ghost use Rattle.imported_interfaces.specs.Known.{AreKept, standing, with_new};
ghost use Rattle.interface_restoring.specs.Names.{is_one};

use canonical_types::{bound_names, own_names};
use canonical_walks::envs_of;
use cm_base::{List, NoMemory, Text};
use imported_interfaces::{KnownNames, Standing};
use name_walks::{names_of, names_of_all};
use row_binders::are_numbered;
use semantic_objects::{Owner, TyName};
use sml_modules::{EnvGraph, EnvId, TopId};
use std::alloc::Global;

/// Whether the names of the unit among some are numbered from 0 in their order.
fn own_numbered(alloc: Global, names: &List<TyName>, home: &Text) -> Result<bool, NoMemory>
    ensures { IfOk result (λ are. IsTrue are ↔ AreNumbered 0 (filter (is_own home.now) names.now)) }
{
    let own = own_names(alloc, names, home)?;
    Ok(are_numbered(own.as_slice(), 0))
}

/// Whether a name is neither the unit's own nor bound.
fn is_other(name: &TyName, home: &Text) -> bool
    ensures { result ≡ is_other home.now name.now }
{
    match &name.owner {
        Owner::Basis => true,
        Owner::Unit(unit) => unit.as_bytes() != home.as_bytes(),
        Owner::Bound => false,
    }
}

/// Those of some names that are neither the unit's own nor bound.
fn other_names(alloc: Global, names: &List<TyName>, home: &Text) -> Result<List<TyName>, NoMemory>
    ensures { IfOk result (λ others. others ≡ filter (is_other home.now) names.now) }
{
    let mut others = List::new(alloc);
    for name in names.as_slice() {
        if is_other(name, home) {
            others.add(name.copy()?)?;
        }
    }
    Ok(others)
}

/// Notes a name, if no other one of its owner and its number was noted. After want of memory the names are of no use.
fn note(known: &mut KnownNames, name: &TyName) -> Result<bool, NoMemory>
    requires { AreKept known.old }
    ensures kept { OnOk result (AreKept known.new) }
    ensures names { OnOk result
        (known.new.names ≡ with_new (standing name.now known.old.names) known.old.names name.now) }
    ensures one { IfOk result (λ one. one ≡ is_one (standing name.now known.old.names)) }
{
    match known.standing(name)? {
        Standing::New => {
            known.add(name)?;
            Ok(true)
        }
        Standing::Same => Ok(true),
        Standing::Other => Ok(false),
    }
}

/// Whether all of some names with one owner and one number agree on arity and equality.
fn all_agree(alloc: Global, names: &List<TyName>) -> Result<bool, NoMemory>
    ensures { IfOk result (λ agree. IsTrue agree ↔ Agree names.now) }
{
    let mut known = KnownNames::new(alloc);
    for name in names.as_slice() {
        if !note(&mut known, name)? {
            return Ok(false);
        }
    }
    Ok(true)
}

/// Whether no bound name stands in the environment at a place.
fn none_bound(graph: &EnvGraph, env: usize) -> Result<bool, NoMemory>
    requires { IsEnv (at graph.now.items env) }
    ensures { IfOk result (λ none.
        IsTrue none ↔ (filter is_bound_name (names_in_env (as_env (at graph.now.items env))) ≡ [])) }
{
    let names = names_of(graph, EnvId { place: env })?;
    let bound = bound_names(graph.alloc(), &names)?;
    Ok(bound.is_empty())
}

/// Whether the names of a unit are as the rules ask: its own are numbered by first occurrence, the others agree on arity
/// and equality, and no bound one stands outside its binder.
pub(crate) fn has_names(graph: &EnvGraph, top: TopId, home: &Text) -> Result<bool, NoMemory>
    requires { HasTop graph.now top }
    ensures { IfOk result (λ has. IsTrue has ↔ HasNames home.now (top_at graph.now top)) }
{
    let alloc = graph.alloc();
    let tables = graph.top_tables(top)?;
    let envs = envs_of(graph, tables)?;
    let names = names_of_all(graph, &envs)?;
    if !own_numbered(alloc, &names, home)? {
        return Ok(false);
    }
    let others = other_names(alloc, &names, home)?;
    if !all_agree(alloc, &others)? {
        return Ok(false);
    }
    none_bound(graph, tables.env)
}
