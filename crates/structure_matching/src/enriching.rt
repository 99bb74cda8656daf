//! The walk that looks whether an environment has all that a signature specifies, once it is realised.

ghost use Rattle.std.specs.Prelude.{◌≡◌, ◌∷◌, ◌++◌, Some, OnOk};
ghost use Rattle.type_nodes.specs.Tables.{state};
ghost use Rattle.static_semantics.specs.EnvironmentsPut.{put_env};
ghost use Rattle.static_semantics.specs.Holding.{AllItems};
ghost use Rattle.module_semantics.specs.Matching.{items_under};
ghost use Rattle.sml_modules.specs.Graphs.{env_at, HasEnv};
ghost use Rattle.core_scopes.specs.Paths.{led_on};
ghost use Rattle.structure_matching.specs.Searching.{type_of_component, structure_of_component, of_components};
ghost use Rattle.structure_matching.specs.Searching.{FindsType, FindsStructure};
ghost use Rattle.structure_matching.specs.Enriching.{value_of_component, FindsValue, Enriches, AllMeet};

use crate::constructors::fits_type;
use crate::parts::{Component, EnvPair, components, env_pair, type_at, value_at};
use crate::refusals::{long_refusal, refusal};
use crate::values::fits_value;
use cm_base::{Fault, List, Place, Text};
use matched_pairs::Pairs;
use sml_modules::EnvGraph;
use sml_types::TypeTable;

/// A type that is there: 35 where its arity is another one than is specified, 37 where its type function or its
/// constructors are. A type structure in which a variable of the table stands, which no source gives, is refused as
/// want of memory is.
fn enrich_found_type(
    g: &EnvGraph,
    t: &mut TypeTable,
    at: &Place,
    path: &[Text],
    component: &Component,
    place: usize,
) -> Result<(), Fault>
    requires { component.now.found ≡ Some place }
    ensures enriches { Enriches at.now (state t.old) result
        (λ root. FindsType g.now.items path.now (state t.old) root component.now)
        (type_of_component g.now.items path.now component.now) }
    ensures table { t.new ≡ t.old }
{
    let alloc = g.alloc();
    if g.facts_at(component.specified).has_free {
        return Err(Fault::NoMemory);
    }
    if g.facts_at(place).has_free {
        return Err(Fault::NoMemory);
    }
    let specified = type_at(g, component.specified)?;
    if component.specified == place {
        return Ok(());
    }
    let found = type_at(g, place)?;
    if found.function.arity != specified.function.arity {
        return Err(refusal(alloc, 35, at));
    }
    if !fits_type(t, alloc, specified, found)? {
        return Err(long_refusal(alloc, 37, at, path, &component.name));
    }
    Ok(())
}

/// A type: 36 where it is missing.
fn enrich_type(
    g: &EnvGraph,
    t: &mut TypeTable,
    at: &Place,
    path: &[Text],
    component: &Component,
) -> Result<(), Fault>
    ensures enriches { Enriches at.now (state t.old) result
        (λ root. FindsType g.now.items path.now (state t.old) root component.now)
        (type_of_component g.now.items path.now component.now) }
    ensures table { t.new ≡ t.old }
{
    match component.found {
        Some(place) => enrich_found_type(g, t, at, path, component, place),
        None => Err(long_refusal(g.alloc(), 36, at, path, &component.name)),
    }
}

/// A value that is there: 37 where it isn't at least as general as is specified, or hasn't the status.
fn enrich_found_value(
    g: &EnvGraph,
    t: &mut TypeTable,
    at: &Place,
    path: &[Text],
    component: &Component,
    place: usize,
) -> Result<(), Fault>
    requires { component.now.found ≡ Some place }
    ensures enriches { Enriches at.now (state t.old) result
        (λ root. FindsValue g.now.items path.now (state t.old) root component.now)
        (value_of_component g.now.items path.now component.now) }
    ensures table { t.new ≡ t.old }
{
    if g.facts_at(component.specified).has_free {
        return Err(Fault::NoMemory);
    }
    let specified = value_at(g, component.specified)?;
    if component.specified == place {
        return Ok(());
    }
    let found = value_at(g, place)?;
    if !fits_value(t, specified, found)? {
        return Err(long_refusal(g.alloc(), 37, at, path, &component.name));
    }
    Ok(())
}

/// A value: 36 where it is missing.
fn enrich_value(
    g: &EnvGraph,
    t: &mut TypeTable,
    at: &Place,
    path: &[Text],
    component: &Component,
) -> Result<(), Fault>
    ensures enriches { Enriches at.now (state t.old) result
        (λ root. FindsValue g.now.items path.now (state t.old) root component.now)
        (value_of_component g.now.items path.now component.now) }
    ensures table { t.new ≡ t.old }
{
    match component.found {
        Some(place) => enrich_found_value(g, t, at, path, component, place),
        None => Err(long_refusal(g.alloc(), 36, at, path, &component.name)),
    }
}

/// Types, in byte order.
fn enrich_types(
    g: &EnvGraph,
    t: &mut TypeTable,
    at: &Place,
    path: &[Text],
    components: &[Component],
) -> Result<(), Fault>
    ensures enriches { Enriches at.now (state t.old) result
        (λ root. AllItems (FindsType g.now.items path.now (state t.old) root) components.now)
        (of_components (type_of_component g.now.items path.now) components.now) }
    ensures table { t.new ≡ t.old }
{
    for component in components {
        enrich_type(g, t, at, path, component)?;
    }
    Ok(())
}

/// Values, in byte order.
fn enrich_values(
    g: &EnvGraph,
    t: &mut TypeTable,
    at: &Place,
    path: &[Text],
    components: &[Component],
) -> Result<(), Fault>
    ensures enriches { Enriches at.now (state t.old) result
        (λ root. AllItems (FindsValue g.now.items path.now (state t.old) root) components.now)
        (of_components (value_of_component g.now.items path.now) components.now) }
    ensures table { t.new ≡ t.old }
{
    for component in components {
        enrich_value(g, t, at, path, component)?;
    }
    Ok(())
}

/// A structure, with all that is inside it: 36 where it is missing. What was found for it once isn't gone through again.
#[cycle(enriching)]
fn enrich_structure(
    g: &EnvGraph,
    t: &mut TypeTable,
    at: &Place,
    path: &mut List<Text>,
    done: &mut Pairs,
    component: &Component,
    levels: usize,
) -> Result<(), Fault>
    requires done { AllMeet at.now (state t.old) g.now.items done.old }
    ensures enriches { Enriches at.now (state t.old) result
        (λ root. FindsStructure g.now.items path.old (state t.old) root component.now)
        (structure_of_component g.now.items path.old component.now) }
    ensures table { t.new ≡ t.old }
    ensures path { OnOk result (path.new ≡ path.old) }
    ensures done { OnOk result (AllMeet at.now (state t.old) g.now.items done.new) }
{
    let Some(found) = component.found else {
        return Err(long_refusal(g.alloc(), 36, at, path.as_slice(), &component.name));
    };
    if done.has(component.specified, found) {
        return Ok(());
    }
    if levels == 0 {
        return Err(Fault::NoMemory);
    }
    let pair = env_pair(g, component.specified, found)?;
    path.add(component.name.copy()?)?;
    enrich_env(g, t, at, path, done, pair, levels - 1)?;
    path.pop();
    Ok(done.add(component.specified, found)?)
}

/// Structures, in byte order.
#[cycle(enriching)]
fn enrich_structures(
    g: &EnvGraph,
    t: &mut TypeTable,
    at: &Place,
    path: &mut List<Text>,
    done: &mut Pairs,
    components: &[Component],
    levels: usize,
) -> Result<(), Fault>
    requires done { AllMeet at.now (state t.old) g.now.items done.old }
    ensures enriches { Enriches at.now (state t.old) result
        (λ root. AllItems (FindsStructure g.now.items path.old (state t.old) root) components.now)
        (of_components (structure_of_component g.now.items path.old) components.now) }
    ensures table { t.new ≡ t.old }
    ensures path { OnOk result (path.new ≡ path.old) }
    ensures done { OnOk result (AllMeet at.now (state t.old) g.now.items done.new) }
{
    for component in components {
        enrich_structure(g, t, at, path, done, component, levels)?;
    }
    Ok(())
}

/// An environment: its structures with all that is inside them, then its types, then its values.
#[cycle(enriching)]
pub(crate) fn enrich_env(
    g: &EnvGraph,
    t: &mut TypeTable,
    at: &Place,
    path: &mut List<Text>,
    done: &mut Pairs,
    pair: EnvPair,
    levels: usize,
) -> Result<(), Fault>
    requires specified { HasEnv g.now pair.specified }
    requires found { HasEnv g.now pair.found }
    requires done { AllMeet at.now (state t.old) g.now.items done.old }
    ensures enriches { Enriches at.now (state t.old) result
        (λ root. led_on path.old root ≡ Some (put_env (state t.old).stands (env_at g.now pair.found)))
        (items_under path.old (env_at g.now pair.specified)) }
    ensures table { t.new ≡ t.old }
    ensures path { OnOk result (path.new ≡ path.old) }
    ensures done { OnOk result (AllMeet at.now (state t.old) g.now.items done.new) }
{
    let alloc = g.alloc();
    let specified = g.env_tables(pair.specified)?;
    let found = g.env_tables(pair.found)?;
    let structures = components(alloc, &specified.structures, &found.structures)?;
    enrich_structures(g, t, at, path, done, structures.as_slice(), levels)?;
    let types = components(alloc, &specified.types, &found.types)?;
    enrich_types(g, t, at, path.as_slice(), types.as_slice())?;
    let values = components(alloc, &specified.values, &found.values)?;
    enrich_values(g, t, at, path.as_slice(), values.as_slice())
}
