//! The walk for the type functions that realise the flexible names of a signature.

ghost use Rattle.std.specs.Prelude.{◌≡◌, ◌∷◌, ◌++◌, ◌&&◌, not, ℕ, List, Some, IfOk, OnOk};
ghost use Rattle.unification.specs.Types.{State, Marks};
ghost use Rattle.semantic_objects.specs.Environments.{Env, types};
ghost use Rattle.realisation.specs.Realised.{function_admits};
ghost use Rattle.type_walks.specs.Replaced.{rows_of};
ghost use Rattle.static_semantics.specs.Inferring.{Scope, found_at};
ghost use Rattle.module_semantics.specs.Matching.{items_under, realising};
ghost use Rattle.type_phrases.specs.Inferred.{Answers};
ghost use Rattle.sml_modules.specs.Graphs.{env_at, HasEnv};
ghost use Rattle.core_scopes.specs.Paths.{led_on};
ghost use Rattle.static_semantics.specs.EnvironmentsPut.{put_env};
ghost use Rattle.static_semantics.specs.Holding.{AllItems};
ghost use Rattle.structure_matching.specs.Searching.{at_of, known_type, type_of_component, structure_of_component, of_components};
ghost use Rattle.structure_matching.specs.Searching.{IsSearch, Continues, Realises, FindsType, FindsStructure, AreSettled};

use crate::parts::{Component, EnvPair, components, env_pair, type_at};
use crate::refusals::{long_refusal, refusal};
use crate::search::Search;
use cm_base::{Fault, NoMemory, Place};
use function_forms::admits;
use matched_pairs::Pairs;
use semantic_objects::{TyName, TypeFn};
use sml_modules::{EnvGraph, EnvId, copy_function};
use std::alloc::Global;

/// Whether a name admits equality, and a type function doesn't.
fn lacks_equality(alloc: Global, name: &TyName, function: &TypeFn) -> Result<bool, NoMemory>
    ensures { IfOk result (λ lacks. (q : Marks) → lacks ≡ (name.now.eq && not (function_admits q function.now))) }
{
    if !name.eq {
        return Ok(false);
    }
    let admits = admits(alloc, function)?;
    Ok(!admits)
}

/// Realises a name by the type function of the type structure at a place: 35 where it has another arity, 33 where the
/// name admits equality and the type function doesn't. A type structure in which a variable of a table stands, which no
/// source gives, is refused as want of memory is.
fn realise_name(
    g: &EnvGraph,
    at: &Place,
    search: &mut Search,
    name: &TyName,
    place: usize,
) -> Result<(), Fault>
    requires { IsSearch search.old }
    ensures answers { (inner : Scope) (s : State) (root : Env) (path : List (List ℕ)) → inner.home ≡ at.now.file
        → found_at types path root ≡ Some (known_type g.now.items s place)
        → Answers (realising inner (at_of at.now) s root path (rows_of search.old.rows) (Some name.now))
        (λ u. rows_of search.new.rows) result }
    ensures continues { OnOk result (Continues search.old search.new) }
{
    let alloc = g.alloc();
    if g.facts_at(place).has_free {
        return Err(Fault::NoMemory);
    }
    let found = type_at(g, place)?;
    if found.function.arity != name.arity {
        return Err(refusal(alloc, 35, at));
    }
    if lacks_equality(alloc, name, &found.function)? {
        return Err(refusal(alloc, 33, at));
    }
    let by = copy_function(alloc, &found.function)?;
    Ok(search.realise(name.copy()?, by)?)
}

/// A type: where it is specified as a flexible name alone that nothing realises yet, it realises the name, or is 36
/// where it is missing.
fn realise_type(
    g: &EnvGraph,
    at: &Place,
    search: &mut Search,
    component: &Component,
) -> Result<(), Fault>
    requires { IsSearch search.old }
    ensures realises { Realises at.now search.old search.new result
        (λ s root. FindsType g.now.items search.old.path s root component.now)
        (type_of_component g.now.items search.old.path component.now) }
    ensures continues { OnOk result (Continues search.old search.new) }
{
    let specified = type_at(g, component.specified)?;
    match search.flexible(&specified.function)? {
        None => Ok(()),
        Some(name) => match component.found {
            None => Err(long_refusal(g.alloc(), 36, at, search.path.as_slice(), &component.name)),
            Some(place) => realise_name(g, at, search, name, place),
        },
    }
}

/// Types, in byte order.
fn realise_types(
    g: &EnvGraph,
    at: &Place,
    search: &mut Search,
    components: &[Component],
) -> Result<(), Fault>
    requires { IsSearch search.old }
    ensures realises { Realises at.now search.old search.new result
        (λ s root. AllItems (FindsType g.now.items search.old.path s root) components.now)
        (of_components (type_of_component g.now.items search.old.path) components.now) }
    ensures continues { OnOk result (Continues search.old search.new) }
{
    for component in components {
        realise_type(g, at, search, component)?;
    }
    Ok(())
}

/// A structure, with all that is inside it: 36 where it is missing. What was found for it once isn't gone through again.
#[cycle(realising)]
fn realise_structure(
    g: &EnvGraph,
    at: &Place,
    search: &mut Search,
    done: &mut Pairs,
    component: &Component,
    levels: usize,
) -> Result<(), Fault>
    requires search { IsSearch search.old }
    requires done { AreSettled at.now g.now.items search.old done.old }
    ensures realises { Realises at.now search.old search.new result
        (λ s root. FindsStructure g.now.items search.old.path s root component.now)
        (structure_of_component g.now.items search.old.path component.now) }
    ensures continues { OnOk result (Continues search.old search.new) }
    ensures done { OnOk result (AreSettled at.now g.now.items search.new done.new) }
{
    let Some(found) = component.found else {
        return Err(long_refusal(g.alloc(), 36, at, search.path.as_slice(), &component.name));
    };
    if done.has(component.specified, found) {
        return Ok(());
    }
    if levels == 0 {
        return Err(Fault::NoMemory);
    }
    let pair = env_pair(g, component.specified, found)?;
    search.enter(&component.name)?;
    realise_env(g, at, search, done, pair, levels - 1)?;
    search.leave();
    Ok(done.add(component.specified, found)?)
}

/// Structures, in byte order.
#[cycle(realising)]
fn realise_structures(
    g: &EnvGraph,
    at: &Place,
    search: &mut Search,
    done: &mut Pairs,
    components: &[Component],
    levels: usize,
) -> Result<(), Fault>
    requires search { IsSearch search.old }
    requires done { AreSettled at.now g.now.items search.old done.old }
    ensures realises { Realises at.now search.old search.new result
        (λ s root. AllItems (FindsStructure g.now.items search.old.path s root) components.now)
        (of_components (structure_of_component g.now.items search.old.path) components.now) }
    ensures continues { OnOk result (Continues search.old search.new) }
    ensures done { OnOk result (AreSettled at.now g.now.items search.new done.new) }
{
    for component in components {
        realise_structure(g, at, search, done, component, levels)?;
    }
    Ok(())
}

/// An environment: its structures with all that is inside them, then its types. Its values realise nothing.
#[cycle(realising)]
pub(crate) fn realise_env(
    g: &EnvGraph,
    at: &Place,
    search: &mut Search,
    done: &mut Pairs,
    pair: EnvPair,
    levels: usize,
) -> Result<(), Fault>
    requires specified { HasEnv g.now pair.specified }
    requires found { HasEnv g.now pair.found }
    requires search { IsSearch search.old }
    requires done { AreSettled at.now g.now.items search.old done.old }
    ensures realises { Realises at.now search.old search.new result
        (λ s root. led_on search.old.path root ≡ Some (put_env s.stands (env_at g.now pair.found)))
        (items_under search.old.path (env_at g.now pair.specified)) }
    ensures continues { OnOk result (Continues search.old search.new) }
    ensures done { OnOk result (AreSettled at.now g.now.items search.new done.new) }
{
    let alloc = g.alloc();
    let specified = g.env_tables(pair.specified)?;
    let found = g.env_tables(pair.found)?;
    let structures = components(alloc, &specified.structures, &found.structures)?;
    realise_structures(g, at, search, done, structures.as_slice(), levels)?;
    let types = components(alloc, &specified.types, &found.types)?;
    realise_types(g, at, search, types.as_slice())
}
